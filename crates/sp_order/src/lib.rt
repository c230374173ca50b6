// Orders of times: pairs of which the first is before the second, and who is before whom by a path of them.
// Below stand the pairs and what it means that a time is before another (sp_spec_system, sp_law_system); above stand systems in memory
// (sp_system), which hold an order each. Carried here: the pairs are those that were added; `before` and `has_cycle` tell exactly what they
// say, by a look at rows of bits that are kept closed; copies share an order until one of them is changed, and then the others keep theirs.
#![tactic(auto)]

mod closure;
pub mod order;
mod row;
mod rows;
