// The lines of learning logs, and the block of a log that was found.
// Below stand logs in memory (sp_learn), the values that the facts of a step give to its rule (sp_log), the texts of terms, steps and traces (sp_show), and what
// the lines of a log are (sp_spec_log_lines); above stands what is printed of lemmas over learning logs.
// Each function gives the text that the definition says, and no other byte.
// Carried here: the promise that a log is printed as its lines, with its visible trace below them as below an execution.
#![tactic(auto)]

pub mod block;
pub mod line;
