// What comes of a text whose lemmas are to be proved: a proof is grown for each lemma, and written, drawn or counted, or the one below it is checked.
// Below stand what a text poses (sp_pose), growth (sp_search), the texts of trees, written and read (sp_skel), the judge of trees that were read
// (sp_check), and the logs with which a search ends, with their executions and graphs (sp_learn, sp_transfer, sp_law_found_log, sp_graph); above stands the top call.
// Carried here: the promise that what is written of a lemma is so, with the execution that was found, and that a proof is accepted exactly
// where each step is an instance.
#![tactic(auto)]

mod beginning;
mod block;
mod chosen;
mod replies;
mod setting;
mod shown;
mod taken;
mod tried;
mod verdict;
mod written;

ghost use Rattle.sp_analysis.specs.Laws.{VerdictsAreRight, AnswersAreOne, WrittenIsChecked, ExecutionsAreReadBack};

pub use replies::{Answered, Attempt, Command, answer};
pub use verdict::Verdict;

/// What is written of a lemma is so.
pub fn verdicts_are_right()
    ensures { VerdictsAreRight }
{}

/// Of a text one thing is written.
pub fn answers_are_one()
    ensures { AnswersAreOne }
{}

/// What is written where lemmas are tried is checked as they were tried, and the summary stands behind it.
pub fn written_is_checked()
    ensures { WrittenIsChecked }
{}

/// Each execution that is written is read back from its lines.
pub fn executions_are_read_back()
    ensures { ExecutionsAreReadBack }
{}
