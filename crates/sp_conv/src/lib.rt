// The test of a theory's equations.
// Below stand the definition of accepted equations (sp_law_conv), unification (sp_unify) and equations in memory (sp_fact).
// Above stand the findings on equations, the forms of rules (sp_variant), and what a text without findings poses.
// Carried here: the answer is Accepted exactly where the equations are accepted, else it names the first fault, for a clash with the unifier.
#![tactic(auto)]

pub mod check;
pub mod clash;
pub mod form;

pub use clash::{above, above_all, shifted};
