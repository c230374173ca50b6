// Reads rules: their heads, with a modulo or attributes in brackets, what `let` binds, and their facts with the arrow between them.
// Below stand tokens (sp_lex), facts as they are read (sp_read_parts), the bindings of `let` (sp_read_atoms), and rules in memory (sp_written); whole
// theories are read above (sp_read_theory), and what they list beside this (sp_read_listings).
// Carried here: the promise that texts are read exactly, for rules. What is read is what the tokens spell by the grammar (sp_spec_text), and where
// nothing is read no rule stands (specs/Rules.antt).
#![tactic(auto)]

mod heads;
pub mod rules;
