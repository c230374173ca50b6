// Proof trees that were read are judged: accepted, with the log with which the search ends if it does, or rejected at a step.
// Below stand which trees are accepted (sp_spec_proof) and the moves in memory (sp_step); above stands the top call.
// specs/Rejected.antt says in the field's words which step is rejected, specs/Judging.antt how it is found, and specs/Laws.antt that the
// two are one. Carried here: the promise that a tree is rejected exactly where it isn't accepted, at its first step that fails, and that
// an accepted one gives the log of the first leaf with which the search ends.
#![tactic(auto)]

ghost use Rattle.sp_check.specs.Laws.{JudgementsAreRight};

mod counts;
mod judging;
mod skeleton;

pub use counts::{has_open, steps};
pub use judging::{Clause, Judgement, judge};
pub use skeleton::{Node, Skeleton, Step};

/// Judgements say which trees are accepted and with which log, and at which step and by which clause the others are rejected.
pub fn judgements_are_right()
    ensures { JudgementsAreRight }
{}
