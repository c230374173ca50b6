// What the moves of a proof give on worked examples: moves, and times that are made one.
// Below stand what steps are tried on (sp_test_steps) and the crates of moves, from terms (sp_term) to steps (sp_step).
// Nothing stands above.
// Nothing is promised here: what the clauses of those crates don't say is shown, that they say what is meant, by values that come from
// outside. They stand apart from the tests of the search, so that both are proved side by side, and neither waits for what it doesn't call.
// A table is a static: a function that names a constant makes its value anew, step by step, and each step is proved.
#![tactic(auto)]

#[cfg(test)]
mod deciding;
#[cfg(test)]
mod merged;
#[cfg(test)]
mod moves;
