// The forms (variants) of a rule.
// Below stand the definition of the forms (sp_spec_forms) and its laws (sp_law_forms), unification (sp_unify), facts and equations in memory
// (sp_fact), forms in memory and the test of normal forms (sp_book), and terms with their variables renamed apart (sp_conv). Above stand the readers of
// theories, which make the book of a theory's rules, and the moves on chains, which number variables in the same way.
// Carried here: the calls give the forms of the definition, in their order. What this says of the rule, that they are complete, sound and in normal
// form, are the laws of sp_law_forms. What forms in memory stand for is said in sp_book/specs/View.antt.
#![tactic(auto)]

mod alike;
mod arguments;
pub mod book;
mod facts;
pub mod forms;
mod narrowing;
pub mod numbering;
