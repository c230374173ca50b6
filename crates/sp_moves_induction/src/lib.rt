// The move with which a proof begins: induction, at its root alone.
// Below stand what the move is (sp_spec_formula), moves and cases in memory (sp_moves), and what a proof begins from (sp_solved); above stands a step of
// a proof (sp_step).
// Carried here: the promise that the cases are those that are defined, and that there are some just where the system is the root's.
#![tactic(auto)]

pub mod induction;
