// What single steps of a proof are tried on: systems and contexts that several crates of tests begin with, and systems as texts.
// Below stand the makers of values (sp_test_make) and all rows and moves (sp_step); above stand the tests of rows (sp_test_rows) and of
// the search (sp_test_search), and nothing else.
// No promise is carried here: a function says in its name what it makes or tells.
#![tactic(auto)]

pub mod examples;
pub mod texts;
