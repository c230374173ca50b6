// State facts, actions, rules, traces, the steps of an execution and the signature that they are over, in memory; ground terms and facts among them.
// Below stand their definitions (sp_spec) and terms in memory (sp_term); above stand rules with their forms (sp_book), systems (sp_system), moves, logs,
// normal forms (sp_norm), the reading and the replaying of steps (sp_read_steps, sp_exec), and truth over a trace (sp_eval).
// Carried here: what each value in memory stands for. Copying gives equal facts, and putting terms for variables gives those of the definition.
// The texts in which ground ones are printed are sp_spec_text's (specs/Printed.antt).
#![tactic(auto)]

pub mod fact;
pub mod ground_fact;
pub mod ground_term;
pub mod rule;
pub mod signature;
pub mod step;
