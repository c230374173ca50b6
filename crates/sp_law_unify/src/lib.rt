// Laws of unification: the unifier that the definition computes is most general, and there is none exactly where nothing solves the pairs.
// Below stand sp_spec (terms, substitutions, the unifier) and sp_law_equal; above stands the unifier in code (sp_unify).
// Carried here: the unifier makes the pairs the same, keeps sorts, leads to every other unifier, and there is one such at most.
// What a most general unifier is stands in specs/MostGeneral.antt, and each lemma in a file of proofs/ by its subject.
// The functions do nothing when they run: the one clause of each is a law.
#![tactic(auto)]

ghost use Rattle.sp_law_unify.specs.Laws.{UnifierIsMostGeneral, MostGeneralIsOne};

/// The unifier is most general, and there is none exactly where no values of the variables' sorts make the pairs the same.
pub fn unifier_is_most_general()
    ensures { UnifierIsMostGeneral }
{}

/// Two most general unifiers of the same pairs bind each variable to one term.
pub fn most_general_is_one()
    ensures { MostGeneralIsOne }
{}
