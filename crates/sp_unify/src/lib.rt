// Unification of terms with sorts.
// Below stand the definition of the unifier (sp_spec), its laws (sp_law_unify) and terms in memory (sp_term); above it the merging of
// facts and the moves on systems. The call is exact: it gives the bindings that the definition gives, and none where that gives none.
// It carries the promise that these are a most general unifier, and that there is none exactly where nothing solves the pairs.
#![tactic(auto)]

pub mod unify;
