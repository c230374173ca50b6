// The laws of deciding truth: over a trace in normal form, a guarded formula without destructors is true exactly where it is found true.
// It is for all that evaluates formulas: what is checked of a found execution, and of one that was read.
// Below it stand sp_spec with the definitions, and sp_law_equal, sp_law_truth, sp_law_guard; above it stands sp_eval, which decides in memory.
// Of the promise on meaning it carries that quantifiers over all ground terms are decided by the terms that stand in the trace.
// Nothing here runs: each public function is a law, and its one clause says it.
#![tactic(auto)]

ghost use Rattle.sp_law_decide.specs.Laws.{TruthIsDecided, FormsKeepConstructors};

/// What is decided of a guarded formula over a normal trace is its truth.
pub fn truth_is_decided()
    ensures { TruthIsDecided }
{}

/// The guarded form of a formula without destructors has none.
pub fn forms_keep_constructors()
    ensures { FormsKeepConstructors }
{}
