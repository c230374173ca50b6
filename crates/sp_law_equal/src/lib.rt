// Laws of equality modulo equations: each term has one normal form, and terms are equal where these are the same.
// Below stands sp_spec (terms, equations, Equal, IsNormal). The laws of executions, rule forms and destructions stand above.
// Carried here: the promise that normal forms are exact, for equations that are subterm rules. The laws above ask for the normal forms alone.
// What the definitions are is in specs/, and each lemma that other laws cite is in a file of proofs/ by its subject.
// The functions do nothing when they run: the one clause of each is a law.
#![tactic(auto)]

ghost use Rattle.sp_law_equal.specs.Laws.{NormalFormsDecide, SymbolsAreKept, PairsAreConvergent};

/// Normal forms decide equality, for each list of subterm rules.
pub fn normal_forms_decide()
    ensures { NormalFormsDecide }
{}

/// Normal forms are over the symbols of their terms, where the equations bring in none.
pub fn symbols_are_kept()
    ensures { SymbolsAreKept }
{}

/// The equations that belong to every theory are convergent.
pub fn pairs_are_convergent()
    ensures { PairsAreConvergent }
{}
