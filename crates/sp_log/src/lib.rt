// Steps of rules in logs, in memory: their tests, and what they stand for.
// Below stand the definition of logs (sp_spec), the laws of the forms of rules (sp_law_forms), the steps that an entry stands for (sp_law_log_steps), ground
// facts (sp_fact), normal forms (sp_norm), and the forms of rules in memory (sp_book); above stand learning logs, whose steps are these (sp_learn), and
// what writes their executions (sp_transfer).
// Carried here: a test for each clause of the definition that is about steps, exact, and the steps of an execution that an entry stands for. It carries no
// promise on whole logs: that is sp_learn's.
#![tactic(auto)]

pub mod check;
pub mod execution;
mod instance;
pub mod log;
pub mod names;
mod normal_form;
pub mod sources;
