// Learning logs in memory: what rules did, and what the adversary sent and learnt, checked whole.
// Below stand their definition (sp_spec), steps of logs and their tests (sp_log), the destructions of a theory and links of
// chains (sp_destruct).
// Above stands whoever searches for logs that solve a system with an adversary.
// Carried here: a log is checked exactly as it is defined, with the first entry and the least clause that fail, which is what the definition says;
// and it gives its traces.
#![tactic(auto)]

pub mod check;
mod learning;
pub mod log;
mod sources;
pub mod trace;
