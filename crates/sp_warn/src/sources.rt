// Premises that nothing makes.

ghost use Rattle.std.specs.Prelude.{◌≡◌, ◌∷◌, [], OnOk};
ghost use Rattle.std.specs.List.{flat_map};
ghost use Rattle.sp_read_parts.specs.Views as parts;
ghost use Rattle.sp_written.specs.Views as view;
ghost use Rattle.sp_declared.specs.WrittenRules.{item_written, rules_written};
ghost use Rattle.sp_warn.specs.FormView.{made_of};
ghost use Rattle.sp_lines.specs.TextsView.{texts_of};
ghost use Rattle.sp_warn.specs.Told.{lines_after};
ghost use Rattle.sp_warn.specs.Warnings.{without_source, sources_of_rule};

use crate::forms::fact_form;
use crate::made::Made;
use crate::warning::{Warning, tell_if};
use sp_lines::Texts;
use sp_read_parts::{WrittenFact, WrittenRule};
use sp_written::Item;
use std::alloc::{AllocError, Global};

/// Tells of a premise of the rule of this name, if nothing makes it.
fn tell_premise(
    alloc: Global,
    lines: &mut Texts,
    made: &Made,
    rule: &str,
    fact: &WrittenFact,
) -> Result<(), AllocError>
    ensures { OnOk result (texts_of lines.new ≡ lines_after (texts_of lines.old) (without_source (made_of made.now) rule.now (parts.fact_of fact.now ∷ []))) }
{
    let form = fact_form(fact);
    let is_missing = !made.has(form);
    tell_if(
        alloc,
        lines,
        is_missing,
        Warning::NoSource(rule, form.symbol, form.arity),
    )
}

/// Tells of each premise of the rule that nothing makes.
fn tell_premises(
    alloc: Global,
    lines: &mut Texts,
    made: &Made,
    rule: &WrittenRule,
) -> Result<(), AllocError>
    ensures { OnOk result (texts_of lines.new ≡ lines_after (texts_of lines.old) (sources_of_rule (made_of made.now) (parts.rule rule.now))) }
{
    for fact in &rule.facts.premises {
        tell_premise(alloc, lines, made, rule.name, fact)?;
    }
    Ok(())
}

/// The same in the item, if it is a rule.
fn tell_item(alloc: Global, lines: &mut Texts, made: &Made, item: &Item) -> Result<(), AllocError>
    ensures { OnOk result (texts_of lines.new ≡ lines_after (texts_of lines.old) (flat_map (sources_of_rule (made_of made.now)) (item_written (view.item item.now)))) }
{
    match item {
        Item::Rule(bound) => tell_premises(alloc, lines, made, &bound.rule),
        _ => Ok(()),
    }
}

/// Tells of each premise of the rules among these items that nothing makes.
pub fn tell_sources(
    alloc: Global,
    lines: &mut Texts,
    made: &Made,
    items: &Vec<Item>,
) -> Result<(), AllocError>
    ensures { OnOk result (texts_of lines.new ≡ lines_after (texts_of lines.old) (flat_map (sources_of_rule (made_of made.now)) (rules_written (view.items items.now.items)))) }
{
    for item in items {
        tell_item(alloc, lines, made, item)?;
    }
    Ok(())
}
