// Reads theories: what they declare, rules, restrictions and lemmas with the proofs below them, in any order.
// Below stand tokens (sp_lex), what theories list (sp_read_listings), rules (sp_read_rules), and lemmas and restrictions (sp_read_lemmas) as they are
// read, and theories in memory (sp_written); what makes rules and formulas in memory of a theory stands above.
// Carried here: the promise that texts are read exactly. What is read is what the text says by the grammar (sp_spec_text,
// specs/Theories.antt), in its order, and what is not read says nothing. A theory is read with the spans of the proofs of its lemmas
// (sp_spec_text, specs/Spans.antt), and the place where its text ends.
#![tactic(auto)]

mod declarations;
mod items;
mod read;

ghost use Rattle.sp_read_theory.specs.Laws.{TextsSayOneTheory};

pub use read::read_theory;

/// Tokens spell one theory, and so a text says one, with its proofs at one place each.
pub fn texts_say_one_theory()
    ensures { TextsSayOneTheory }
{}
