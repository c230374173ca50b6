// The moves of a proof that take up a formula: a disjunction by its parts, an action at its event or at a new one, where a rule
// has a step or the adversary sends or learns; in a closed system at some event that it has.
// Below stand what the moves are (sp_spec_formula), systems in memory (sp_system), times that are made one (sp_merge), the book of rules (sp_book),
// and what moves share (sp_moves); above stand all moves together (sp_step). Each call is exact: it gives the cases that the written move gives,
// before they are simplified, and none where the move is no instance. Carried here: the promise that no case of these moves is left out.
#![tactic(auto)]

pub mod action;
pub mod apply;
mod at_each;
mod at_event;
mod by_adversary;
pub mod by_rules;
pub mod or;
pub mod solving;
