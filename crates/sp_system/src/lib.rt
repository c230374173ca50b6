// Constraint systems in memory.
// Below stand what systems are (sp_spec_system), and facts, formulas, unifiers and orders of times in memory; above stand merging in systems (sp_merge),
// what is learnt in them and where premises come from (sp_learnings), and the rows and moves in code. Carried here: an event has the facts of what
// happens at it; copying systems, replacing throughout them and spending a formula are exact. Copies share each list, and the elements of each.
#![tactic(auto)]

mod adversary;
pub mod at_time;
mod changes;
pub mod event;
pub mod freed;
pub mod learnt_by;
pub mod order;
pub mod picked;
pub mod spend;
mod staying;
pub mod system;
pub mod time;
pub mod way;
