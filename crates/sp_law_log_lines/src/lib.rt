// What is printed of a learning log that was found is read back line by line, as far as its lines tell. Below stand what is printed (sp_spec_log_lines, sp_show_log), which
// lines are those of steps (sp_read_steps), and the laws on the block of an execution (sp_law_printed_log); above stands what is written of lemmas over learning logs.
// Carried here: the promise that each line of a log tells of its entry, that it is the line of no other thing, and that the lines tell the log's trace.
// Nothing here runs: each public function is a law, and its one clause says it.
#![tactic(auto)]

ghost use Rattle.sp_law_log_lines.specs.Laws.{LogLinesAreReadBack, LinesTellEntries, LogsAreTold};

/// A text is that of one line at most, and lines are cut where they end.
pub fn log_lines_are_read_back()
    ensures { LogLinesAreReadBack }
{}

/// Entries of which the same lines tell are alike, and show the same.
pub fn lines_tell_entries()
    ensures { LinesTellEntries }
{}

/// The lines of a log tell of its entries.
pub fn logs_are_told()
    ensures { LogsAreTold }
{}
