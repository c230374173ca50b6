// Which words are lines of the command, and what they ask for: tables that are worked out by hand from what the command takes.
// Below stands the reader of words (sp_words). Nothing stands above.
// Nothing is promised here. What no clause says is shown: that options stand before and behind FILE or N, and which slips are none.
#![tactic(auto)]

#[cfg(test)]
mod lines;
