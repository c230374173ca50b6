// Guarded formulas in memory.
// Below stand the definitions of guarded formulas (sp_spec), terms in memory (sp_term) and actions (sp_fact); above stand systems
// (sp_system), and what makes formulas (sp_guard) and opens them (sp_rows_formula). Each call is exact: copying gives an equal formula, and
// putting terms for variables and one time for another throughout a formula gives that of the definition (sp_spec's specs/Change.antt).
#![tactic(auto)]

pub mod fingerprint;
pub mod formula;
pub mod place;
pub mod same;
pub mod shared;
pub mod slots;
pub mod staying;
