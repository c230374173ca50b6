// The fatal findings on builtins, symbols and equations, told as lines.
// Below stand findings and what concerns a term (sp_finding), what a text declares (sp_declared), and which equations are accepted (sp_conv);
// above stands the report on a theory (sp_wf), beside it what is told of rules and of formulas (sp_wf_rules, sp_wf_formulas).
// Carried here: exactly the lines of the definition's findings stand behind the others, and there are none exactly where each symbol is declared in
// one way, the equations are over the symbols, and they are accepted.
// src/symbols.rt has builtins and symbols, src/firsts.rt symbols that are looked up, src/equations.rt equations.
#![tactic(auto)]

mod equations;
mod firsts;
mod symbols;

pub use equations::{tell_equations, tell_unknown_in_equations, without_numbers};
pub use symbols::{tell_declared, tell_left_out, tell_wide_symbols};
