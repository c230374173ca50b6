// Names that stand in several forms.

ghost use Rattle.std.specs.Prelude.{◌≡◌, ◌∷◌, ◌++◌, [], List, IfOk, OnOk, map};
ghost use Rattle.sp_warn.specs.Firsts.{called_by, Knows};
ghost use Rattle.sp_warn.specs.Forms as spec;
ghost use Rattle.sp_warn.specs.Forms.{differs_from_first};
ghost use Rattle.sp_warn.specs.FormView.{form_of};
ghost use Rattle.sp_lines.specs.TextsView.{texts_of};
ghost use Rattle.sp_warn.specs.Told.{lines_after};
ghost use Rattle.sp_warn.specs.Warnings.{several_among};

use crate::forms::{Form, Usage};
use crate::warning::{Warning, tell_if};
use indexmap::IndexMap;
use sp_lines::Texts;
use std::alloc::{AllocError, Global};

/// A name, of facts or of actions.
#[derive(Clone, Copy, PartialEq, Eq, Hash)]
pub struct Called<'f> {
    pub name: &'f str,
    pub is_action: bool,
}

/// What forms of this name are called.
fn called_by<'f>(form: Form<'f>) -> Called<'f>
    ensures { result ≡ called_by form.entry }
{
    let is_action = match form.usage {
        Usage::Linear | Usage::Persistent => false,
        Usage::Action => true,
    };
    Called {
        name: form.symbol,
        is_action,
    }
}

/// Whether the first form of this one's name is another. Where there is none yet, this is the first.
fn differs<'f>(
    firsts: &mut IndexMap<Called<'f>, Form<'f>>,
    form: Form<'f>,
) -> Result<bool, AllocError>
    ensures differs { IfOk result (λ differs. (before : List spec.Form) → Knows firsts.old before → differs ≡ differs_from_first (form_of form.entry) before) }
    ensures knows { OnOk result ((before : List spec.Form) → Knows firsts.old before → Knows firsts.new (before ++ form_of form.entry ∷ [])) }
{
    let called = called_by(form);
    match firsts.get(&called).copied() {
        Some(first) => Ok(form != first),
        None => {
            firsts.insert(called, form)?;
            Ok(false)
        }
    }
}

/// Tells of each of these forms that isn't the first of its name.
pub fn tell_several(alloc: Global, lines: &mut Texts, forms: &Vec<Form>) -> Result<(), AllocError>
    ensures { OnOk result (texts_of lines.new ≡ lines_after (texts_of lines.old) (several_among [] (map form_of forms.now.items))) }
{
    let mut firsts = IndexMap::new(alloc);
    for form in forms {
        let has_another = differs(&mut firsts, *form)?;
        tell_if(
            alloc,
            lines,
            has_another,
            Warning::SeveralForms(form.symbol),
        )?;
    }
    Ok(())
}
