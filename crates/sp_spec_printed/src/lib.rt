// Printed texts: the lines of terms, steps and traces, and those that say a verdict.
// Below stand the meaning of theories (sp_spec) and texts as they are read (sp_spec_text); above stands what prints lines, and what reads step
// lines back (sp_show, sp_read_steps, sp_replay, sp_check, sp_analysis).
// It carries no promise of its own: it holds definitions that a reader must believe, each with its public source, one subject a file in specs/:
// Printed for terms, steps and traces; StepLines for the lines that are steps; Kind and Verdict for what is said of lemmas.
#![tactic(auto)]
