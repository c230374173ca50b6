// The laws of truth: what may change in a trace or in values while formulas keep their truth.
// It is for all that compares traces: executions with logs, found executions with normal ones, a theory with a changed one.
// Below it stand sp_spec with the definitions and sp_law_equal; above it stand the crates that replay, erase the adversary, and cover.
// Of the promise on meaning it carries the truth of formulas: equal values and traces, and what may be left out.
// Nothing here runs: each public function is a law, and its one clause says it.
#![tactic(auto)]

ghost use Rattle.sp_law_truth.specs.Laws.{TruthIsClassical, EqualValuesKeepTruth, LeavingOutKeepsTruth};

/// What is not false is true, of written and of guarded formulas.
pub fn truth_is_classical()
    ensures { TruthIsClassical }
{}

/// Equal values, and traces with equal actions, leave each formula's truth as it is.
pub fn equal_values_keep_truth()
    ensures { EqualValuesKeepTruth }
{}

/// What a formula doesn't name, and entries without actions, may be left out of a trace.
pub fn leaving_out_keeps_truth()
    ensures { LeavingOutKeepsTruth }
{}
