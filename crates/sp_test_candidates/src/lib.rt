// What is learnt and found on worked examples: what moves learn and send, candidates for logs, and logs that are found.
// Below stand what steps are tried on (sp_test_steps) and the crates of moves, from terms (sp_term) to steps (sp_step) and candidates (sp_solved).
// Nothing stands above.
// Nothing is promised here: what the clauses of those crates don't say is shown, that they say what is meant, by values that come from
// outside. They stand apart from the tests of other moves, so that both are proved side by side.
// A table is a static: a function that names a constant makes its value anew, step by step, and each step is proved.
#![tactic(auto)]

#[cfg(test)]
mod candidates;
#[cfg(test)]
mod learning;
