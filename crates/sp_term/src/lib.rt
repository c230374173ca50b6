// Terms in memory over leaves of any kind, what is put for leaves, and matching.
// Below stand the definitions of terms (sp_spec); above it unification, facts, formulas and systems. Each function is exact: what it
// returns stands for the term that the definition gives. It carries the promise that applying a substitution, comparing terms and matching are
// those of the definitions. A symbol is its name: which names are symbols, and private, is the signature's.
#![tactic(auto)]

pub mod apply;
pub mod found;
pub mod leaves;
pub mod matching;
pub mod subst;
pub mod term;
