// What the program answers to commands on worked examples: proofs that are grown and checked, under restrictions and by lemmas that are taken,
// executions that are found and replayed, and refusals.
// Below stand the top call (sp_top), the library and the sinks in memory that it is called with (sp_io), and what comes of a text within so many moves
// (sp_analysis). Nothing stands above.
// Nothing is promised here. What no clause says is shown: that the headline speaks of what the language means, by answers that are worked
// out by hand.
#![tactic(auto)]

#[cfg(test)]
mod adversary;
#[cfg(test)]
mod answers;
#[cfg(test)]
mod calls;
#[cfg(test)]
mod deep;
#[cfg(test)]
mod executions;
#[cfg(test)]
mod forms;
#[cfg(test)]
mod generated;
#[cfg(test)]
mod graphs;
#[cfg(test)]
mod induction;
#[cfg(test)]
mod items;
#[cfg(test)]
mod learning;
#[cfg(test)]
mod lemmas;
#[cfg(test)]
mod logs;
#[cfg(test)]
mod named;
#[cfg(test)]
mod progress;
#[cfg(test)]
mod proofs;
#[cfg(test)]
mod ranking;
#[cfg(test)]
mod restrictions;
#[cfg(test)]
mod reused;
#[cfg(test)]
mod stateful;
#[cfg(test)]
mod steps;
#[cfg(test)]
mod symbols;
#[cfg(test)]
mod variants;
#[cfg(test)]
mod warnings;
