// What is picked from a list.

ghost use Rattle.std.specs.Prelude.{◌≡◌, option_map};
ghost use Rattle.sp_term.specs.View.{view, view_all};
ghost use Rattle.sp_spec_system.specs.Picked as spec;

use sp_term::term::Term;

/// The term, if it is the only one.
pub fn only_term(terms: &Vec<Term>) -> Option<&Term>
    ensures { option_map (λ t. view t.now) result ≡ spec.only_term (view_all terms.now.items) }
{
    if terms.len() == 1 {
        terms.first()
    } else {
        None
    }
}
