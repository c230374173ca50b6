// The moves of a proof that decide what a system leaves open: how two times lie, whether two names are the same, what stands for a message, and whether
// more happens.
// Below stand what the moves are (sp_spec_formula, sp_spec_graph), systems in memory (sp_system), and what moves share (sp_moves). Each call is exact: it gives
// the cases that the written move gives, before they are simplified, and none where the move is no instance.
// Carried here: the promise that no case of these moves is left out.
#![tactic(auto)]

pub mod apply;
pub mod compare;
pub mod more;
mod occurring;
pub mod same;
pub mod top;
mod with_formula;
