// From executions to learning logs, and back: what the adversary gets in an execution it learns, each message once and in normal form; and what it learns
// in a log it gets by steps of its own.
// Below stand sp_exec (instances of steps), sp_learn (learning logs), sp_destruct (links of chains), sp_norm (normal forms), the theorem on the adversary
// (sp_law_adversary), and the law that a log stands for an execution (sp_law_log_execution).
// Above stands what prints the executions of logs that are found; what reads logs off executions will.
// Carried here: the log of an execution of a right theory is a learning log, passes the test of logs, and shows the execution's trace in normal form;
// and the steps of a learning log are an execution with the log's visible trace.
// The construction stands in specs/Construction.antt, over that of sp_law_adversary/specs/Learning.antt; proofs/ has one subject a file.
#![tactic(auto)]

ghost use Rattle.sp_transfer.specs.Laws.{ExecutionsHaveLogs};

mod chain;
pub mod destructing;
pub mod execution;
pub mod learning;
pub mod level;
mod raising;
pub mod state;
pub mod transfer;
pub mod way;

/// Each execution of a right theory has a learning log that shows its trace in normal form, and that log is a function of its steps.
pub fn executions_have_logs()
    ensures { ExecutionsHaveLogs }
{}
