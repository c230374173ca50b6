// The elementary moves that take up a formula, in memory, and the contradictions that one formula or one pair shows.
// Below stand what these rows are (sp_spec_formula), systems in memory, with what is spent there (sp_system), and times that are made one
// (sp_merge); above stand all elementary moves together (sp_step). Each call is exact: it gives the system that the written row gives, and none where
// the row gives none. Carried here: the promise that each of these rows in memory is the written one.
// That the rows lose no solution is said of the definitions, in sp_law_formula.
#![tactic(auto)]

pub mod action_stands;
pub mod disjunction;
pub mod equate;
pub mod in_order;
pub mod inside;
mod instances;
pub mod instantiate;
pub mod last;
pub mod matching;
pub mod open_existential;
pub mod opening;
pub mod slots;
pub mod split;
pub mod unequal;
