// Laws of accepted equations: each term has one normal form over them.
// Below stand sp_law_equal (normal forms over subterm rules) and sp_law_unify; above stands the test of a theory's equations (sp_conv).
// Carried here: equations of which the test says that they are accepted are convergent, and bring in no symbols.
// What accepted equations are stands in specs/Accepted.antt and specs/Clash.antt, and each lemma in a file of proofs/ by its subject.
// The functions do nothing when they run: the one clause of each is a law.
#![tactic(auto)]

ghost use Rattle.sp_law_conv.specs.Laws.{AcceptedAreConvergent};

/// Accepted equations are convergent.
pub fn accepted_are_convergent()
    ensures { AcceptedAreConvergent }
{}
