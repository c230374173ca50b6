// What comes of a text whose lines behind its word `end` are replayed as the steps of an execution.
// Below stand what a text poses (sp_pose), the reading of steps (sp_read_steps), replaying (sp_exec), truth over a trace (sp_eval) and the texts of
// traces (sp_show); above stands the top call.
// Carried here: the promise that steps are replayed exactly where they are an execution, that what is written is its trace, and that of each
// restriction is written whether it is true over that trace, and so of each lemma, unless that names learning.
#![tactic(auto)]

mod replay;
mod written;

ghost use Rattle.sp_replay.specs.Laws.{RepliesAreOne};

pub use replay::{Attempt, replayed};
pub use sp_exec::cause::Cause;

/// Of a text one thing is answered.
pub fn replies_are_one()
    ensures { RepliesAreOne }
{}
