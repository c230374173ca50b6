// Lemmas that are taken for the proofs of those behind them.

ghost use Rattle.std.specs.Prelude.{◌≡◌, ◌++◌, IfOk, OnOk, map};
ghost use Rattle.std.specs.List.{list_any};
ghost use Rattle.sp_formula.specs.FormulaView.{formula_of};
ghost use Rattle.sp_written.specs.Views as view;
ghost use Rattle.sp_pose.specs.Asked.{asked_of};
ghost use Rattle.sp_analysis.specs.Taken as spec;
ghost use Rattle.sp_analysis.specs.View.{taken_of, verdict_of};

use crate::verdict::Verdict;
use sp_formula::formula::Formula;
use sp_pose::GuardedLemma;
use sp_written::{Attribute, TraceKind};
use std::alloc::{AllocError, Global};

/// A lemma that is taken.
#[derive(Drop)]
pub struct Taken<'a> {
    /// its name
    pub name: &'a str,
    /// its guarded form
    pub form: Formula,
}

/// Whether the attribute marks a lemma to be taken.
fn is_reused(attribute: &Attribute) -> bool
    ensures { result ≡ spec.is_reused (view.attribute attribute.now) }
{
    match attribute {
        Attribute::Reused | Attribute::OfSources => true,
        _ => false,
    }
}

/// Whether one of the attributes does.
fn is_marked(attributes: &Vec<Attribute>) -> bool
    ensures { result ≡ list_any spec.is_reused (view.attributes attributes.now.items) }
{
    for attribute in attributes {
        if is_reused(attribute) {
            return true;
        }
    }
    false
}

/// Whether a lemma of this kind and with these attributes is taken, by its verdict.
fn gives(kind: TraceKind, verdict: Verdict, attributes: &Vec<Attribute>) -> bool
    ensures { result ≡ spec.gives (view.kind kind) (verdict_of verdict) (view.attributes attributes.now.items) }
{
    match (kind, verdict) {
        (TraceKind::AllTraces, Verdict::Verified) => is_marked(attributes),
        _ => false,
    }
}

/// Whether the attribute hides the lemma of this name.
fn hides(name: &str, attribute: &Attribute) -> bool
    ensures { result ≡ spec.hides name.now (view.attribute attribute.now) }
{
    match attribute {
        Attribute::Hiding(hidden) => *hidden == name,
        _ => false,
    }
}

/// Whether one of the attributes hides it.
fn is_hidden(attributes: &Vec<Attribute>, taken: &Taken) -> bool
    ensures { result ≡ spec.is_hidden (view.attributes attributes.now.items) (taken_of taken.now) }
{
    for attribute in attributes {
        if hides(taken.name, attribute) {
            return true;
        }
    }
    false
}

/// The guarded forms of those that are taken for a lemma with these attributes.
///
/// # Errors
///
/// `AllocError` where memory is wanting.
pub fn taken_for(
    alloc: Global,
    attributes: &Vec<Attribute>,
    taken: &Vec<Taken>,
) -> Result<Vec<Formula>, AllocError>
    ensures { IfOk result (λ fs. map formula_of fs.items ≡ spec.taken_for (view.attributes attributes.now.items) (map taken_of taken.now.items)) }
{
    let mut forms = Vec::new(alloc);
    for other in taken {
        if !is_hidden(attributes, other) {
            forms.push(other.form.clone()?)?;
        }
    }
    Ok(forms)
}

/// Puts the lemma to those that are taken, if its verdict and its attributes say so.
///
/// # Errors
///
/// `AllocError` where memory is wanting.
pub fn push_taken<'a>(
    taken: &mut Vec<Taken<'a>>,
    lemma: &GuardedLemma<'a>,
    verdict: Verdict,
) -> Result<(), AllocError>
    ensures { let a = asked_of lemma.now in
        OnOk result (map taken_of taken.new.items ≡ map taken_of taken.old.items ++ spec.taken_if (spec.gives a.kind (verdict_of verdict) a.attributes) a.name a.form) }
{
    if gives(lemma.kind, verdict, &lemma.attributes) {
        let form = lemma.form.clone()?;
        taken.push(Taken {
            name: lemma.name,
            form,
        })?;
    }
    Ok(())
}
