// Printed lines of learning logs: what each says, its text, the block of a log, and what the lines tell of the log's entries.
// Below stand the meaning of theories (sp_spec), texts as they are read (sp_spec_text) and the texts of terms, steps and traces (sp_spec_printed); above
// stands what prints a log (sp_show_log), and the laws on its lines (sp_law_log_lines).
// It carries no promise of its own: it holds definitions that a reader must believe, each with its public source, one subject a file in specs/:
// Line for what a line says and its text; Block for the lines of a log; Told for what they tell.
#![tactic(auto)]
