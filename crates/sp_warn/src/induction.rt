// Lemmas for which induction is asked, where it has no effect.

ghost use Rattle.std.specs.Prelude.{◌≡◌, ◌∷◌, [], None, OnOk};
ghost use Rattle.std.specs.List.{flat_map};
ghost use Rattle.sp_spec_text.specs.Written.{lemma_item};
ghost use Rattle.sp_written.specs.Views as view;
ghost use Rattle.sp_lines.specs.TextsView.{texts_of};
ghost use Rattle.sp_warn.specs.Told.{lines_after};
ghost use Rattle.sp_warn.specs.Warnings as spec;
ghost use Rattle.sp_warn.specs.Warnings.{induction_of_item};

use crate::warning::{Warning, tell_if};
use sp_lines::Texts;
use sp_written::{Attribute, Item, TraceKind, WrittenLemma};
use std::alloc::{AllocError, Global};

fn asks_for_trace(kind: TraceKind) -> bool
    ensures { result ≡ spec.asks_for_trace (view.kind kind) }
{
    match kind {
        TraceKind::AllTraces => false,
        TraceKind::ExistsTrace => true,
    }
}

fn is_by_induction(attribute: &Attribute) -> bool
    ensures { result ≡ spec.is_for_induction (view.attribute attribute.now ∷ []) }
{
    match attribute {
        Attribute::ByInduction => true,
        _ => false,
    }
}

/// Whether one of the attributes asks for induction.
fn is_for_induction(attributes: &Vec<Attribute>) -> bool
    ensures { result ≡ spec.is_for_induction (view.attributes attributes.now.items) }
{
    for attribute in attributes {
        if is_by_induction(attribute) {
            return true;
        }
    }
    false
}

/// Tells of a lemma that asks for induction and says that there is a trace.
fn tell_lemma(alloc: Global, lines: &mut Texts, lemma: &WrittenLemma) -> Result<(), AllocError>
    ensures { OnOk result (texts_of lines.new ≡ lines_after (texts_of lines.old) (induction_of_item (lemma_item (view.lemma lemma.now) (view.attributes lemma.now.attributes.items) None))) }
{
    let has_no_effect = asks_for_trace(lemma.kind) && is_for_induction(&lemma.attributes);
    tell_if(
        alloc,
        lines,
        has_no_effect,
        Warning::NoInduction(lemma.name),
    )
}

fn tell_item(alloc: Global, lines: &mut Texts, item: &Item) -> Result<(), AllocError>
    ensures { OnOk result (texts_of lines.new ≡ lines_after (texts_of lines.old) (induction_of_item (view.item item.now))) }
{
    match item {
        Item::Lemma(lemma) => tell_lemma(alloc, lines, lemma),
        _ => Ok(()),
    }
}

/// Tells of each lemma that asks for induction and says that there is a trace.
pub fn tell_induction(alloc: Global, lines: &mut Texts, items: &Vec<Item>) -> Result<(), AllocError>
    ensures { OnOk result (texts_of lines.new ≡ lines_after (texts_of lines.old) (flat_map induction_of_item (view.items items.now.items))) }
{
    for item in items {
        tell_item(alloc, lines, item)?;
    }
    Ok(())
}
