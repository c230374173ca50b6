// Reads the steps of an execution from the lines of a replay.
// Below stand ground terms and steps in memory (sp_fact), the texts in which they are printed, the words of texts, and which lines are those
// of steps (sp_spec_text, specs/Printed.antt, Lex.antt, Names.antt, StepLines.antt); above stands the replaying of steps (sp_exec).
// specs/Reading.antt says which lines are those of steps as a reader from the left takes them.
// Carried here: the promise that lines are read exactly. The steps are those that print as the lines, or the first other line is told.
#![tactic(auto)]

ghost use Rattle.sp_read_steps.specs.Laws.{StepsAreOne};

mod applications;
mod parts;
mod read;
mod steps;
mod terms;
mod texts;

pub use parts::StepLines;
pub use read::read_steps;

/// Lines are those of one list of steps, or one line is the first that is no step's.
pub fn steps_are_one()
    ensures { StepsAreOne }
{}
