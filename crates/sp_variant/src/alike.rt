// Forms that have the same facts.

ghost use Rattle.std.specs.Prelude.{◌≡◌, [], ◌∷◌, OnOk};
ghost use Rattle.std.specs.List.{list_any};
ghost use Rattle.sp_spec_forms.specs.Alike.{same_list};
ghost use Rattle.sp_spec_forms.specs.Forms.{alike_form};
ghost use Rattle.sp_book.specs.View.{form_of};
ghost use Rattle.sp_variant.specs.View.{list_by};
ghost use Rattle.sp_variant.specs.Adding.{added_after};

use crate::arguments::HasArguments;
use sp_book::form::Form;
use std::alloc::AllocError;

/// Whether those at each place are the same, and as many.
fn same_list<T: HasArguments>(xs: &Vec<T>, ys: &Vec<T>) -> bool
    ensures { result ≡ same_list T.alike (list_by T.kind_of xs.now) (list_by T.kind_of ys.now) }
{
    if xs.len() != ys.len() {
        return false;
    }
    for (x, y) in xs.iter().zip(ys) {
        if !x.is_alike(y) {
            return false;
        }
    }
    true
}

/// Whether both have the same facts.
fn alike(a: &Form, b: &Form) -> bool
    ensures { result ≡ alike_form (form_of a.now) (form_of b.now) }
{
    same_list(&a.facts.premises, &b.facts.premises)
        && same_list(&a.facts.actions, &b.facts.actions)
        && same_list(&a.facts.conclusions, &b.facts.conclusions)
}

/// Whether one of these has the same facts.
fn stands_among(form: &Form, forms: &Vec<Form>) -> bool
    ensures { result ≡ list_any (λ f. alike_form f (form_of form.now)) (list_by form_of forms.now) }
{
    for other in forms {
        if alike(other, form) {
            return true;
        }
    }
    false
}

/// Puts the form at the end, unless one with the same facts stands there.
///
/// # Errors
///
/// `AllocError` where memory is wanting.
pub fn add(forms: &mut Vec<Form>, form: Form) -> Result<(), AllocError>
    ensures { OnOk result (list_by form_of forms.new ≡ added_after alike_form (list_by form_of forms.old) (form_of form ∷ [])) }
{
    if !stands_among(&form, forms) {
        forms.push(form)?;
    }
    Ok(())
}
