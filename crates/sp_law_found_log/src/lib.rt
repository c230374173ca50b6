// The laws of what was found: a log over whose trace the restrictions are true, and a lemma's formula is false, or true, shows that of an execution,
// steps of the adversary included; and the search ends exactly with such a log. Below stand the checking of logs (sp_learn), the logs that are looked
// for (sp_solved), the execution of a log (sp_law_log_execution), the deciding of truth (sp_law_decide), and what the rules and formulas that are read
// are like (sp_law_tree); above stands the answer that a search gives (sp_analysis).
// Carried here: the promise that what a found log says of a lemma is so of the execution that is printed for it.
// Nothing here runs: the public function is a law, and its one clause says it.
#![tactic(auto)]

ghost use Rattle.sp_law_found_log.specs.Laws.{FoundLogsShow, FoundIsSought, SearchesEndAsSought};

/// A log that was found breaks the lemma, or satisfies it, and so does its execution.
pub fn found_logs_show()
    ensures { FoundLogsShow }
{}

/// The search ends at a system exactly where its candidate is a log of the theory over whose trace the formulas are true.
pub fn found_is_sought()
    ensures { FoundIsSought }
{}

/// A context whose search ends with what is found ends its search as it is to.
pub fn searches_end_as_sought()
    ensures { SearchesEndAsSought }
{}
