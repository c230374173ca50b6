// The laws of guarded forms: a formula and its guarded form say the same, and what a guarded form's shape grants.
// It is for all that proves a written formula by its guarded form: accepted proofs, and the leaving out of entries from a trace.
// Below it stand sp_spec with the definitions and sp_law_truth; above it stand the crates that make and check the proofs of lemmas.
// Of the promise on meaning it carries the step from the formula that a text writes to the formula that a proof is about.
// Nothing here runs: each public function is a law, and its one clause says it.
#![tactic(auto)]

ghost use Rattle.sp_law_guard.specs.Laws.{NegationTurnsTruth, NegationIsAnInvolution, GuardedFormKeepsTruth, GuardedFormsAreTimed, GuardedFormsName, GuardedFormsAreClosed};

/// The negation of a guarded formula is true exactly where the formula isn't.
pub fn negation_turns_truth()
    ensures { NegationTurnsTruth }
{}

/// The negation of the negation of a guarded form is that form.
pub fn negation_is_an_involution()
    ensures { NegationIsAnInvolution }
{}

/// The guarded form of a closed formula is as true as the formula.
pub fn guarded_form_keeps_truth()
    ensures { GuardedFormKeepsTruth }
{}

/// Each time of a form whose variables are guarded is bound, and stands in an action of a guard.
pub fn guarded_forms_are_timed()
    ensures { GuardedFormsAreTimed }
{}

/// The guarded form speaks of the formula's actions alone.
pub fn guarded_forms_name()
    ensures { GuardedFormsName }
{}

/// No variable and no time of a system stands in a guarded form.
pub fn guarded_forms_are_closed()
    ensures { GuardedFormsAreClosed }
{}
