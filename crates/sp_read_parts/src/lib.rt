// Reads variables, terms and facts from tokens; what a formula and a rule are in memory stands here too.
// Below stand sp_spec (what is written), sp_spec_text (the grammar) and sp_lex (tokens); formulas and the bindings of `let` are read above
// (sp_read_formula), and theories (sp_read_theory).
// Carried here: the promise that texts are read exactly, for the parts of a rule and of an atom. What a reader gives is spelled by the tokens that it
// takes, in the grammar of sp_spec_text; where it gives nothing, no text of the grammar stands there (specs/Parts.antt).
#![tactic(auto)]

mod annotations;
pub mod binders;
pub mod cursor;
pub mod facts;
pub mod terms;
pub mod words;
mod written;

pub use written::{
    Mark, ReadFormula, WrittenAction, WrittenBinding, WrittenFact, WrittenRule, WrittenTerm,
    WrittenVariable,
};
