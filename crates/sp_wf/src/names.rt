// The findings on the names of rules, on those of restrictions and lemmas, and on the names that a rule binds.

ghost use Rattle.std.specs.Prelude.{◌≡◌, ◌||◌, ℕ, List, [], OnOk, bytes_eq};
ghost use Rattle.sp_written.specs.Views as view;
ghost use Rattle.sp_finding.specs.Finding.{bound_twice, lines_after, told};
ghost use Rattle.sp_finding.specs.View.{finding_of};
ghost use Rattle.sp_lines.specs.TextsView.{texts_of};
ghost use Rattle.sp_wf_rules.specs.BindingView.{names_of};
ghost use Rattle.sp_wf.specs.ItemFindings as spec;
ghost use Rattle.sp_wf.specs.Told.{is_one_of, or_one_of, item_again};

use sp_finding::{Finding, RuleFinding, tell_if};
use sp_lines::Texts;
use sp_wf_rules::BoundNames;
use sp_written::Item;
use std::alloc::{AllocError, Global};

/// Tells of the name what is said of it, where it is one of these, and puts it among them.
fn tell_name(
    alloc: Global,
    lines: &mut Texts,
    names: &mut Texts,
    name: &str,
    finding: Finding,
) -> Result<(), AllocError>
    ensures is_told { OnOk result (texts_of lines.new ≡ lines_after (texts_of lines.old) (told (is_one_of names.old name.now) (finding_of finding.entry) [])) }
    ensures is_put { OnOk result ((q : List ℕ) → is_one_of names.new q ≡ (bytes_eq name.now q || is_one_of names.old q)) }
{
    let key = String::from_str(alloc, name)?;
    let is_new = names.see(key)?;
    tell_if(alloc, lines, !is_new, finding)?;
    Ok(())
}

/// Tells of the item's name where an item of its kind has it already; restrictions and lemmas are of one kind.
fn tell_item_name(
    alloc: Global,
    lines: &mut Texts,
    rules: &mut Texts,
    statements: &mut Texts,
    item: &Item,
) -> Result<(), AllocError>
    ensures is_told { OnOk result (texts_of lines.new ≡ lines_after (texts_of lines.old) (item_again (is_one_of rules.old) (is_one_of statements.old) (view.item item.now))) }
    ensures in_rules { OnOk result ((q : List ℕ) → is_one_of rules.new q ≡ or_one_of (spec.names_of_rules (view.item item.now)) (is_one_of rules.old) q) }
    ensures in_statements { OnOk result ((q : List ℕ) → is_one_of statements.new q ≡ or_one_of (spec.names_of_statements (view.item item.now)) (is_one_of statements.old) q) }
{
    match item {
        Item::Rule(bound) => {
            let name = bound.rule.name;
            tell_name(alloc, lines, rules, name, Finding::UsedTwice(name))
        }
        Item::Restriction(restriction) => {
            let name = restriction.name;
            tell_name(alloc, lines, statements, name, Finding::UsedTwice(name))
        }
        Item::Lemma(lemma) => {
            let name = lemma.name;
            tell_name(alloc, lines, statements, name, Finding::UsedTwice(name))
        }
        _ => Ok(()),
    }
}

/// Tells of each rule whose name an earlier rule has, and of each restriction and each lemma whose name an earlier one has.
pub fn tell_names(alloc: Global, lines: &mut Texts, items: &Vec<Item>) -> Result<(), AllocError>
    ensures { OnOk result (texts_of lines.new ≡ lines_after (texts_of lines.old) (spec.repeated [] [] (view.items items.now.items))) }
{
    let mut rules = Texts::new(alloc);
    let mut statements = Texts::new(alloc);
    for item in items {
        tell_item_name(alloc, lines, &mut rules, &mut statements, item)?;
    }
    Ok(())
}

/// Tells of each name that the rule binds twice.
pub fn tell_twice(
    alloc: Global,
    lines: &mut Texts,
    rule: &str,
    bound: &BoundNames,
) -> Result<(), AllocError>
    ensures { OnOk result (texts_of lines.new ≡ lines_after (texts_of lines.old) (spec.told_again (bound_twice rule.now) [] (names_of bound.now).bound)) }
{
    let mut seen = Texts::new(alloc);
    for name in &bound.bound {
        let finding = Finding::OnRule(rule, RuleFinding::BoundTwice(*name));
        tell_name(alloc, lines, &mut seen, *name, finding)?;
    }
    Ok(())
}
