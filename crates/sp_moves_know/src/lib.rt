// The moves of a proof on what the adversary learns: a message is constructed, is a name of the adversary's own, or a chain leads to it from what some
// rule puts out; and a chain is done, or goes on by a destruction.
// Below stand what the moves are (sp_spec_know), what is learnt in a system (sp_learnings), the destructions of the equations (sp_destruct),
// variables numbered as they are first seen (sp_variant), the book of rules (sp_book), and what moves share (sp_moves); above stand all moves
// together (sp_step). Each call is exact: it gives the cases that the written move gives, before they are simplified, and none where the move is no
// instance.
// Carried here: the promise that no case of these moves is left out.
#![tactic(auto)]

pub mod apply;
pub mod chain;
pub mod know;
mod link;
