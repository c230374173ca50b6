// Formulas without an existential quantifier.

ghost use Rattle.std.specs.Prelude.{◌≡◌, map};
ghost use Rattle.sp_spec.specs.Guarded.{guardeds_of};
ghost use Rattle.sp_formula.specs.FormulaView.{formula_of};
ghost use Rattle.sp_law_induction.specs.Hypothesis as spec;

use sp_formula::formula::Formula;

/// Whether no existential quantifier stands in the formula; it takes no memory.
#[cycle(is_safety)]
pub fn is_safety(form: &Formula) -> bool
    ensures { result ≡ spec.is_safety (formula_of form.now) }
{
    match form {
        Formula::Truth | Formula::Falsity => true,
        Formula::Holds(_) | Formula::Fails(_) => true,
        Formula::AllOf(parts) | Formula::OneOf(parts) => are_safety(parts),
        Formula::Exists(_, _, _) => false,
        Formula::ForAll(_, _, body) => is_safety(body),
    }
}

#[cycle(is_safety)]
fn are_safety(parts: &Vec<Formula>) -> bool
    ensures { result ≡ spec.are_safety (guardeds_of (map formula_of parts.now.items)) }
{
    for part in parts {
        if !is_safety(part) {
            return false;
        }
    }
    true
}
