// Merging in a system: what makes two happenings one, and two times that are made one with the events at them.
// Below stand what merging is (sp_spec_system), systems in memory (sp_system) and unifiers (sp_unify); above stand the rows that make times
// one (sp_rows_formula, sp_rows_graph) and what moves share (sp_moves), in which actions and facts are made the same.
// Each call is exact: it makes of a system what the definition makes of it, and nothing where the definition gives nothing.
// Carried here: the promise that merging what happens at two events, and making two times one, are the written ones.
#![tactic(auto)]

pub mod joining;
pub mod made_one;
mod meeting;
pub mod merging;
pub mod pairing;
