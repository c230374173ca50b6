// What the moves of a proof share in memory: moves and cases, what applying a move gives, a new step of a rule over new variables, the names of the
// cases that a rule gives, systems in which actions or facts are the same, and the times that occur in a system.
// Below stand what moves are (sp_spec_system) and of which parts (sp_spec_formula), systems in memory (sp_system), merging (sp_merge) and the forms of
// rules (sp_book); above stand the moves by what they take up (sp_moves_formula, sp_moves_graph, sp_moves_know), none of which names another.
// Carried here: the promise that each of these parts is the one of which the definitions of the moves are made.
#![tactic(auto)]

pub mod applied;
pub mod moves;
pub mod named;
pub mod renamed;
pub mod times;
pub mod where_same;
pub mod with_step;
