// Executions replayed step by step, on a state whose facts are in normal form.
// Below stand the laws of executions (sp_law_run), normal forms and instances (sp_norm), ground terms and rules in memory
// (sp_fact); above stand the commands that check what was found of a theory, and write it.
// Carried here: the promise that `replay` is the definition of executions. It answers the trace, in normal form, exactly where the steps
// are an execution, and otherwise the first step that can't be done, with the least cause.
#![tactic(auto)]

pub mod cause;
mod given;
pub mod instance;
mod machine;
pub mod replay;
pub mod taking;
