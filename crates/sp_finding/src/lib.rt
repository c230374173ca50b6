// What may be wrong with the terms, the facts, the actions and the variables of a theory that is written in the grammar; findings, and their lines.
// Below stand what the findings are (sp_spec), lines (sp_lines), which symbols are destructors (sp_conv) and theories as they are read
// (sp_read_parts); above it symbols, rules and formulas are reported on (sp_wf_symbols, sp_wf_rules, sp_wf_formulas), and the variables of rules are
// numbered (sp_pose).
// The calls are exact: each test is that of the definition, and of each finding that is told the line stands once behind the others.
// Carried here: the promise that a text with a fatal finding is reported on, as far as it concerns one term, one fact or one variable.
// src/finding.rt has the findings, src/known.rt symbols that are looked up, src/terms.rt what concerns a term, src/variables.rt the variables of
// a rule and their sorts, src/facts.rt what concerns a fact, src/learning.rt whether a formula speaks of learning.
#![tactic(auto)]

mod facts;
mod finding;
mod forms;
mod known;
mod learning;
mod terms;
mod variables;

pub use facts::{
    MOST_ARGUMENTS, are_too_many, is_fr, is_fresh_variable, is_one, is_wrong_action,
    is_wrong_conclusion, is_wrong_premise, may_be_fresh,
};
pub use finding::{Finding, FormulaFinding, RuleFinding, tell_if};
pub use known::KnownSymbols;
pub use learning::names_learning;
pub use terms::{has_destructor, have_destructor, tell_unknown, tell_unknown_in_all};
pub use variables::{occurrences, sort_in};
