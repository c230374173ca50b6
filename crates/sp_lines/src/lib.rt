// Texts, each once, in the order in which they were first seen: lines and names.
// Below stands what it is to stand once among others (sp_spec); above stand the symbols of a theory (sp_declared), the fatal findings on it (sp_finding),
// of which some are on names that stand twice (sp_wf), and the warnings (sp_warn).
// Carried here: a text is put at the end exactly where it doesn't stand yet, and it is said whether it was. It is looked up in a set, so that the time
// is linear in the texts.
#![tactic(auto)]

mod texts;

pub use texts::Texts;
