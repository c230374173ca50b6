// The log that a solved system suggests, and the log that is looked for.
// Below stand systems and the order of their times (sp_system), values of variables and instances (sp_norm), learning logs and their check
// (sp_learn), and truth over a trace (sp_eval); above stands the search for a proof, which ends where a log is found.
// Carried here: the candidate is exactly the one that is defined (sp_spec_solved/specs/Candidate.antt), and a log is found exactly where the candidate is a log of
// the rules whose trace makes the sought formulas true (specs/Found.antt). So a trace that is found is one of the theory's.
#![tactic(auto)]

mod listing;
mod naming;
mod root;
mod seek;
mod suggest;

pub use root::{InductionCases, Root};
pub use seek::{Sought, found};
pub use suggest::candidate;
