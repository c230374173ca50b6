// What texts are read as, on worked examples: tokens, the parts of theories, proofs, theories, the places of refusals, guarded forms,
// findings, and trees with the texts that are written of them.
// Below stand the makers of values (sp_test_make) and the crates that read, judge and write texts, from tokens (sp_lex) to findings (sp_wf)
// and the texts of trees (sp_skel). Nothing stands above.
// Nothing is promised here. What no clause says is shown: that the definitions mean what the language does, by values from outside.
#![tactic(auto)]

#[cfg(test)]
mod findings;
#[cfg(test)]
mod formulas;
#[cfg(test)]
mod places;
#[cfg(test)]
mod proofs;
#[cfg(test)]
mod theories;
#[cfg(test)]
mod tokens;
#[cfg(test)]
mod trees;
