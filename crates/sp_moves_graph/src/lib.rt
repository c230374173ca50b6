// The move of a proof that takes up a premise in the graph of events: a new step of each rule that may give it.
// Below stand what the moves are (sp_spec_graph), where premises come from (sp_learnings), the book of rules (sp_book), and what moves
// share (sp_moves); above stand all moves together (sp_step). Each call is exact: it gives the cases that the written
// move gives, before they are simplified, and none where the premise isn't to have a step for its source.
// Carried here: the promise that no case of this move is left out.
#![tactic(auto)]

pub mod apply;
pub mod premise;
