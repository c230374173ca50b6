// Induction over traces, of formulas in memory: the hypothesis, safety formulas, and what the two cases begin with.
// Below stand formulas in memory (sp_formula), their negation (sp_guard), and the definitions of induction with their laws
// (sp_law_induction); above stands what begins proofs.
// Carried here: each call is exact. It gives what the definition gives, so what the laws say of induction is said of the formulas
// with which a proof by induction begins.
#![tactic(auto)]

pub mod cases;
pub mod hypothesis;
mod lasts;
pub mod safety;
