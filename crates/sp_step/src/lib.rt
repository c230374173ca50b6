// One step of a proof in memory: contradictions, all elementary moves, simplification, the moves of a proof with their words
// and their cases, simplified, and the move that is chosen.
// Below stand what they are (sp_spec_proof), the elementary moves (sp_rows_formula, sp_rows_graph) and the moves (sp_moves_formula,
// sp_moves_graph, sp_moves_know, sp_moves_decide, over sp_moves) by what they take up, the first that decides something (sp_undecided), and the logs
// that are looked for (sp_solved); above stand proof trees (sp_search). Each call is exact: it gives the systems and cases that the definition gives, and
// none where the definition gives none.
// Carried here: the promise that what is simplified is what the written rows simplify, and that no case of a move is left out.
#![tactic(auto)]

pub mod apply;
pub mod choose;
pub mod context;
mod decided;
mod events;
mod learning;
pub mod moves;
pub mod reduce;
pub mod simplify;
pub mod words;
