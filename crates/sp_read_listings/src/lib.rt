// Reads what a theory lists behind a keyword and a colon: builtins, functions with their arities, equations, and the words of a heuristic, which end
// where the next item begins; and blocks of text.
// Below stand tokens (sp_lex), names, symbols and terms as they are read (sp_read_parts), and items in memory (sp_written); whole theories are read
// above (sp_read_theory), and rules beside this (sp_read_rules).
// Carried here: the promise that texts are read exactly, for listings. What is read is what the tokens spell by the grammar (sp_spec_text), as far as it
// can reach (specs/Listings.antt, Heuristics.antt), and where nothing is read no listing stands.
#![tactic(auto)]

pub mod blocks;
mod heuristic;
pub mod listings;
mod symbols;
