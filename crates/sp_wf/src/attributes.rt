// The findings on what restrictions name, and on the attributes of lemmas.

ghost use Rattle.std.specs.Prelude.{◌≡◌, OnOk};
ghost use Rattle.sp_written.specs.Views as view;
ghost use Rattle.sp_finding.specs.Finding.{lines_after};
ghost use Rattle.sp_lines.specs.TextsView.{texts_of};
ghost use Rattle.sp_wf.specs.ItemFindings as spec;

use sp_finding::{Finding, tell_if};
use sp_lines::Texts;
use sp_wf_formulas::tell_learning;
use sp_written::{Attribute, Item, WrittenLemma};
use std::alloc::{AllocError, Global};

fn tell_if_learning(alloc: Global, lines: &mut Texts, item: &Item) -> Result<(), AllocError>
    ensures { OnOk result (texts_of lines.new ≡ lines_after (texts_of lines.old) (spec.learning_in_item (view.item item.now))) }
{
    match item {
        Item::Restriction(restriction) => tell_learning(alloc, lines, restriction),
        _ => Ok(()),
    }
}

/// Tells of each restriction that names the action of learning.
pub fn tell_all_learning(
    alloc: Global,
    lines: &mut Texts,
    items: &Vec<Item>,
) -> Result<(), AllocError>
    ensures { OnOk result (texts_of lines.new ≡ lines_after (texts_of lines.old) (spec.on_items spec.learning_in_item (view.items items.now.items))) }
{
    for item in items {
        tell_if_learning(alloc, lines, item)?;
    }
    Ok(())
}

/// Tells of the attribute of the lemma of this name, where it isn't known.
fn tell_attribute(
    alloc: Global,
    lines: &mut Texts,
    lemma: &str,
    attribute: &Attribute,
) -> Result<(), AllocError>
    ensures { OnOk result (texts_of lines.new ≡ lines_after (texts_of lines.old) (spec.left_out_by lemma.now (view.attribute attribute.now))) }
{
    match attribute {
        Attribute::Unknown(word) => {
            tell_if(alloc, lines, true, Finding::AttributeLeftOut(lemma, *word))
        }
        _ => Ok(()),
    }
}

/// Tells of each attribute of the lemma that isn't known.
fn tell_attributes(alloc: Global, lines: &mut Texts, lemma: &WrittenLemma) -> Result<(), AllocError>
    ensures { OnOk result (texts_of lines.new ≡ lines_after (texts_of lines.old) (spec.left_out_of lemma.now.name.now (view.attributes lemma.now.attributes.items))) }
{
    for attribute in &lemma.attributes {
        tell_attribute(alloc, lines, lemma.name, attribute)?;
    }
    Ok(())
}

fn tell_if_attributes(alloc: Global, lines: &mut Texts, item: &Item) -> Result<(), AllocError>
    ensures { OnOk result (texts_of lines.new ≡ lines_after (texts_of lines.old) (spec.attributes_in_item (view.item item.now))) }
{
    match item {
        Item::Lemma(lemma) => tell_attributes(alloc, lines, lemma),
        _ => Ok(()),
    }
}

/// Tells of each attribute of a lemma that isn't known.
pub fn tell_all_attributes(
    alloc: Global,
    lines: &mut Texts,
    items: &Vec<Item>,
) -> Result<(), AllocError>
    ensures { OnOk result (texts_of lines.new ≡ lines_after (texts_of lines.old) (spec.on_items spec.attributes_in_item (view.items items.now.items))) }
{
    for item in items {
        tell_if_attributes(alloc, lines, item)?;
    }
    Ok(())
}
