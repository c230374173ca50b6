// Forms that are looked up.

ghost use Rattle.std.specs.Prelude.{◌≡◌, IfOk};
ghost use Rattle.sp_warn.specs.Forms as spec;
ghost use Rattle.sp_warn.specs.Forms.{is_among};
ghost use Rattle.sp_warn.specs.FormView.{form_of, made_of};
ghost use Rattle.sp_written.specs.Views as view;
ghost use Rattle.sp_declared.specs.WrittenRules.{rules_written};

use crate::forms::{Form, made_in};
use indexmap::IndexSet;
use sp_written::Item;
use std::alloc::{AllocError, Global};

/// The forms of all that rules make.
#[derive(Drop)]
pub struct Made<'f> {
    forms: IndexSet<Form<'f>>,
}

impl<'f> Made<'f> {
    /// What the rules among these items make, and the built-in ones.
    pub fn by(alloc: Global, items: &'f Vec<Item>) -> Result<Made<'f>, AllocError>
        ensures { IfOk result (λ made. (x : spec.Form) → is_among x (made_of made) ≡ is_among x (spec.made_in (rules_written (view.items items.now.items)))) }
    {
        let made = made_in(alloc, items)?;
        let mut forms = IndexSet::new(alloc);
        for form in &made {
            forms.insert(*form)?;
        }
        Ok(Made { forms })
    }

    /// Whether this is one of them.
    #[tactic(auto, using(crate::proofs::LookedUp::among_keys))]
    pub fn has(&self, form: Form) -> bool
        ensures { result ≡ is_among (form_of form.entry) (made_of self.now) }
    {
        self.forms.contains(&form)
    }
}
