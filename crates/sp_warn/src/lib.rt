// The warnings on a theory: premises and actions that nothing makes, names in several forms, constants that differ in case, marks without effect.
// Below stand lines (sp_lines), theories as they are written (sp_written), walks over formulas (sp_walk), and what theories declare (sp_declared); above stands what a
// text poses (sp_pose).
// Carried here: the warnings that are written are the definition's (specs/Warnings.antt), in its order, each line once. Names are looked up in maps that
// keep the order in which they were first seen, so that the time is linear in the text.
#![tactic(auto)]

mod actions;
mod alike;
mod constants;
mod forms;
mod induction;
mod made;
mod several;
mod sources;
mod warning;
mod warnings_text;

pub use warning::Warning;
pub use warnings_text::warnings;
