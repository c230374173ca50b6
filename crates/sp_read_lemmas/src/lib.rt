// Reads lemmas with their attributes, their kind of trace and the proofs that stand below them, and restrictions.
// Below stand tokens (sp_lex), formulas (sp_read_formula), proofs (sp_read_proof), blocks of text (sp_read_listings), rules as they are read
// (sp_read_rules), and lemmas in memory (sp_written); whole theories are read above (sp_read_theory).
// Carried here: the promise that texts are read exactly, for lemmas and restrictions. What is read is what the grammar (sp_spec_text,
// specs/Theories.antt) spells there, a lemma with the span of its proof; where nothing is read, it spells none (specs/Lemmas.antt, Items.antt).
#![tactic(auto)]

mod attributes;
pub mod lemmas;
