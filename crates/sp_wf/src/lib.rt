// The fatal findings on a theory as lines, in order.
// Below stand theories as they are written (sp_written), and what is told of symbols and equations, of rules, and of formulas (sp_wf_symbols,
// sp_wf_rules, sp_wf_formulas); above stands what a text poses (sp_pose).
// Carried here: a theory has such lines exactly where it isn't analysed, and they are the definition's.
// src/told.rt has each rule, restriction and lemma, src/unknown.rt the symbols that aren't there, src/names.rt names, src/attributes.rt what
// restrictions name and attributes of lemmas, src/report_text.rt the whole.
#![tactic(auto)]

mod attributes;
mod names;
mod report_text;
mod told;
mod unknown;

ghost use Rattle.sp_wf.specs.Laws.{ReportIsRight};

pub use report_text::{fatal_lines, write_lines};

/// There is no line exactly where there are no findings on it.
pub fn report_is_right()
    ensures { ReportIsRight }
{}
