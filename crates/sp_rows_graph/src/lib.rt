// The elementary moves on the graph of events, in memory: links that have one source or one premise, fresh names, and what is sent and learnt;
// and whether an equation could be used inside a term of an event.
// Below stand what these rows are (sp_spec_graph, sp_spec_know), systems in memory (sp_system), times that are made one (sp_merge), what is learnt and where
// premises come from (sp_learnings), and reducible terms (sp_book); above stand all elementary moves together (sp_step). Each call is exact: it
// gives the system that the written row gives, and none where the row gives none. Carried here: the promise that each of these rows in memory is
// the written one. That the rows lose no solution is said of the definitions, in sp_law_graph
// and sp_law_know.
#![tactic(auto)]

pub mod fresh;
pub mod fresh_first;
pub mod fresh_once;
pub mod learn_once;
pub mod learnt_early;
pub mod linear_once;
pub mod links;
pub mod reducible_event;
pub mod send_input;
pub mod send_learnt;
pub mod settle_learn;
pub mod shared;
pub mod source_twice;
