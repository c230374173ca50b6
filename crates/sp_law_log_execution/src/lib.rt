// Laws of executions for logs: each learning log of a right theory, whatever its entries are, stands for an execution that shows what the log shows.
// Below stand sp_spec (logs, executions), the laws of equality and of runs, sp_law_log (ways, what stands in logs), sp_law_log_steps (what a step stands for) and
// sp_destruct (which link of a chain is found). Above stand what makes these steps (sp_transfer), their lines
// (sp_law_printed_log) and what the executions that are found show of lemmas (sp_law_found_log).
// Carried here: the steps of a log (specs/Executed.antt) are an execution: rules behind their fresh names, what is learnt, also along chains, and what
// is sent.
// The functions do nothing when they run: the one clause of each is a law.
#![tactic(auto)]

ghost use Rattle.sp_law_log_execution.specs.Laws.{LogsAreExecuted, RightTheoriesAreRunnable};

/// The steps that a learning log stands for are an execution, whose trace has the log's visible trace as its normal form.
pub fn logs_are_executed()
    ensures { LogsAreExecuted }
{}

/// So it is for the logs of right theories.
pub fn right_theories_are_runnable()
    ensures { RightTheoriesAreRunnable }
{}
