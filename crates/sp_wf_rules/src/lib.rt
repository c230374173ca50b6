// The fatal findings on rules, told as lines, and what their bindings bind.
// Below stand findings and what concerns a term, a fact or a variable (sp_finding), and theories as they are written (sp_written); above stands the
// report on a theory (sp_wf), beside it what is told of symbols and of formulas (sp_wf_symbols, sp_wf_formulas).
// Carried here: of each rule exactly the lines of the definition's findings stand behind the others, and there are none exactly where nothing is
// wrong with it.
// src/facts.rt has what concerns facts, src/variables.rt variables, src/terms.rt terms, src/bindings.rt the names that are bound.
#![tactic(auto)]

mod bindings;
mod facts;
mod terms;
mod variables;

pub use bindings::{BoundNames, bound_in};
pub use facts::{tell_arguments, tell_reserved, tell_wide};
pub use terms::{tell_destructors, tell_unknown_in_rule};
pub use variables::{tell_sorts, tell_unbound};
