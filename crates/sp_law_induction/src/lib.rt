// Induction over the entries of a trace: what its hypothesis says, and that its two cases are all.
// Below stand sp_spec (guarded formulas, their truth over a trace) and the laws of truth and of guarded forms; above stand the induction of systems and
// logs (sp_law_inductive), and whoever makes the formulas of the cases: `hypothesis` and `is_safety` are defined here.
// Carried here: the promise that a lemma that is false over a trace is so over a shortest prefix, before which all that is taken for granted was true.
#![tactic(auto)]

ghost use Rattle.sp_law_induction.specs.Laws.{HypothesisSpeaksOfThePast, SafetyHoldsBefore, ThereIsAShortest, CasesCoverTraces, HypothesisIsClosed};

/// The hypothesis is true over a trace exactly where the formula is true over the trace without its newest entry.
pub fn hypothesis_speaks_of_the_past()
    ensures { HypothesisSpeaksOfThePast }
{}

/// A safety formula that holds of a trace holds of each prefix.
pub fn safety_holds_before()
    ensures { SafetyHoldsBefore }
{}

/// What is untrue of a trace is untrue of a shortest prefix.
pub fn there_is_a_shortest()
    ensures { ThereIsAShortest }
{}

/// The two cases of induction cover each trace that meets the restrictions and breaks a lemma.
pub fn cases_cover_traces()
    ensures { CasesCoverTraces }
{}

/// The hypothesis is closed where the formula is, and names no other actions.
pub fn hypothesis_is_closed()
    ensures { HypothesisIsClosed }
{}
