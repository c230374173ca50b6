// What is printed of an execution that was found is read back as that execution. Below stand what is printed and which lines are those of
// steps (sp_spec_text, sp_show), the logs that systems suggest (sp_law_candidate) and their executions (sp_law_log_execution); above stands what is written of
// a text (sp_analysis).
// Carried here: the promise that the lines of a found block are the step lines of its execution, and that no other line of a block begins as a verdict's.
// Nothing here runs: each public function is a law, and its one clause says it.
#![tactic(auto)]

ghost use Rattle.sp_law_printed_log.specs.Laws.{StepsAreReadBack, TextsHaveNames, CandidatesHaveNames, LogsMayBeWritten};

/// The lines of steps are read back as those steps.
pub fn steps_are_read_back()
    ensures { StepsAreReadBack }
{}

/// Symbols, rules, variables, actions and lemmas of a text have names as a text may have them, and its public names may stand in quotes.
pub fn texts_have_names()
    ensures { TextsHaveNames }
{}

/// The log that a system suggests has names that may be shown.
pub fn candidates_have_names()
    ensures { CandidatesHaveNames }
{}

/// The execution of a log whose names may be shown may be written, and its trace may be shown.
pub fn logs_may_be_written()
    ensures { LogsMayBeWritten }
{}
