// What the search for a proof gives on worked examples: trees that are grown, and judgements.
// Below stand what steps are tried on (sp_test_steps) and the crates of the search, from terms (sp_term) to judged trees (sp_check).
// Nothing stands above.
// Nothing is promised here: what the clauses of those crates don't say is shown, that they say what is meant, by values that come from
// outside.
// A table is a static: a function that names a constant makes its value anew, step by step, and each step is proved.
#![tactic(auto)]

#[cfg(test)]
mod growth;
#[cfg(test)]
mod judgements;
