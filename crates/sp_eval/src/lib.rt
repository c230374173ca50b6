// Truth of guarded formulas over a trace: whether a formula holds of what an execution has shown.
// Below stand formulas in memory (sp_formula), ground terms and traces (sp_fact), and how truth is decided (sp_law_decide);
// above stands the program's check of executions that were found or read.
// Carried here: `holds` answers exactly as the definition decides, and so, over a trace in normal form, it tells the truth of the formula,
// with quantifiers over all ground terms of the sort.
#![tactic(auto)]

mod atom;
mod environment;
mod equality;
mod matching;
pub mod truth;
mod value;
