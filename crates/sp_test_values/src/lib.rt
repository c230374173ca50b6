// What values in memory give on worked examples: terms, facts and formulas, what unifies, systems and their copies.
// Below stand what makes values (sp_test_make) and the crates from terms (sp_term) to systems (sp_system) and what merges in them (sp_merge).
// Nothing stands above.
// Nothing is promised here: what the clauses of those crates don't say is shown, that they say what is meant, by values that come from
// outside.
// A table is a static that a function hands on: a function that names a table itself has the whole value of it in each step of its proof.
#![tactic(auto)]

#[cfg(test)]
mod systems;
#[cfg(test)]
mod values;
