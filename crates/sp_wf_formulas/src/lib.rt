// The fatal findings on formulas, of restrictions and of lemmas, told as lines.
// Below stand findings and what concerns a term (sp_finding), and guarded forms (sp_guard); above stands the report on a theory (sp_wf), beside
// it what is told of symbols and of rules (sp_wf_symbols, sp_wf_rules).
// Carried here: of each formula exactly the lines of the definition's findings stand behind the others, and there are none exactly where it has a
// guarded form without findings.
// src/uses.rt has the uses of variables, src/formula.rt what is looked for at them, src/atoms.rt what concerns terms, src/destructors.rt
// destructors, src/learning.rt the action of learning.
#![tactic(auto)]

mod atoms;
mod destructors;
mod formula;
mod learning;
mod uses;

pub use atoms::{TermFault, tell_terms_of};
pub use destructors::tell_formula_destructors;
pub use formula::{tell_sought, tell_unguarded};
pub use learning::tell_learning;
pub use uses::Sought;
