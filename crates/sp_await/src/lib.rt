// The parts that a text still has to have at a place of it, and the tests on tokens by which a token is taken.
// Below stand sp_lex (tokens), sp_read_parts (words), and the definitions of the grammar (sp_spec_text); above, what a token does to the
// parts of formulas (sp_await_formula) and of theories (sp_await_theory), that the table has what the grammar has (sp_law_await), and the place
// where a text is refused (sp_place).
// specs/Parts.antt has the parts, specs/Table.antt the table of what a token does to the first of them.
// Carried here: that each test on a token is that of the table.
#![tactic(auto)]

pub mod awaited;
pub mod keywords;
pub mod lexemes;
pub mod moves;
