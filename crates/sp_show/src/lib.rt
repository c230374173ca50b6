// The texts of ground terms, actions, traces and steps.
// Below stand ground terms in memory (sp_fact) and their texts (sp_spec_text, specs/Printed.antt); above stands what is printed of executions (sp_exec, sp_eval).
// Each writer puts at the end of its text what the definition says, and no other byte.
// Carried here: the promise that a term, a trace or a step is printed as its text, from which reading gives it back.
#![tactic(auto)]

pub mod step;
pub mod term;
pub mod trace;
