// Makers of values that tests are run on: terms, facts, rules, formulas, systems, ground terms and texts that were read.
// Below stand the values in memory and the readers; above stand the crates of tests (sp_test_read, sp_test_rows, sp_test_search, sp_test_machine,
// sp_test_top), and nothing else. No promise is carried here: a maker says in its name what it makes.
#![tactic(auto)]

pub mod facts;
pub mod formulas;
pub mod ground;
pub mod plain;
pub mod plain_moves;
pub mod plain_systems;
pub mod systems;
pub mod terms;
pub mod texts;
pub mod values;
