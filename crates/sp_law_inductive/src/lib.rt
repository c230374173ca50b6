// Induction as the first step of a proof: the formulas of its two cases, and that they cover the system in which the proof begins.
// Below stand the induction over traces (sp_law_induction), admitted logs and what is asked of contexts (sp_law_cover), and the laws of roots and of what
// is taken (sp_law_tree); above stands whoever makes the context of a lemma with induction. `cases_of` says which formulas its root has.
// Carried here: the promise that each admitted log was once one that is admitted and solves a case of the induction, so that no log is lost.
#![tactic(auto)]

ghost use Rattle.sp_law_inductive.specs.Laws.{PrefixesAreOfLogs, InductionShows, InductionIsCovered};

/// Each prefix of a log's trace is the trace of what the log was by then.
pub fn prefixes_are_of_logs()
    ensures { PrefixesAreOfLogs }
{}

/// Where a log that meets the restrictions has at no time met a case of the induction, the lemma is true over it.
pub fn induction_shows()
    ensures { InductionShows }
{}

/// The cases of a lemma's induction cover the root of its proof.
pub fn induction_is_covered()
    ensures { InductionIsCovered }
{}
