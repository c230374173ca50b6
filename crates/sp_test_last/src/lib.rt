// What is said of the last time, on worked examples: the rows on it, and when it contradicts.
// Below stand what steps are tried on (sp_test_steps) and the crates from terms (sp_term) to all rows and moves (sp_step).
// Nothing stands above.
// Nothing is promised here: what the clauses of those crates don't say is shown, that they say what is meant, by values that come from
// outside.
// A table is a static that a function hands on: a function that names a table itself has the whole value of it in each step of its proof.
#![tactic(auto)]

#[cfg(test)]
mod lasts;
