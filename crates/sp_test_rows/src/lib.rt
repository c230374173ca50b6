// What rows and contradictions give on worked examples, and instances of universal formulas.
// Below stand what steps are tried on (sp_test_steps) and the crates from terms (sp_term) to all rows and moves (sp_step).
// Nothing stands above.
// Nothing is promised here: what the clauses of those crates don't say is shown, that they say what is meant, by values that come from
// outside. Values and systems in memory, and what is said of the last time, stand apart, so that all are proved side by side.
// A table is a static that a function hands on: a function that names a table itself has the whole value of it in each step of its proof.
#![tactic(auto)]

#[cfg(test)]
mod contradictions;
#[cfg(test)]
mod instances;
#[cfg(test)]
mod rows;
