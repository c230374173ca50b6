// Actions in formulas that no rule has.

ghost use Rattle.std.specs.Prelude.{◌≡◌, ℕ, List, OnOk, refl};
ghost use Rattle.std.specs.List.{flat_map};
ghost use Rattle.sp_read_parts.specs.Views as parts;
ghost use Rattle.sp_read_parts.specs.Formulas as written;
ghost use Rattle.sp_written.specs.Views as view;
ghost use Rattle.sp_warn.specs.Warning as warnings;
ghost use Rattle.sp_warn.specs.FormView.{made_of};
ghost use Rattle.sp_lines.specs.TextsView.{texts_of};
ghost use Rattle.sp_warn.specs.Told.{lines_after};
ghost use Rattle.sp_warn.specs.Warnings.{at_action, at_atom, actions_of_formula, actions_of_item};
ghost use Rattle.sp_warn.specs.ToldLaws.{told_both, both_orders};

use crate::forms::action_form;
use crate::made::Made;
use crate::warning::{Warning, tell_if};
use sp_lines::Texts;
use sp_read_parts::{ReadFormula, WrittenAction, WrittenVariable};
use sp_walk::{Collects, ReadAtom, collect_closed};
use sp_written::Item;
use std::alloc::{AllocError, Global};

/// What rules make, and the name of the formula whose actions are looked up there.
#[derive(Clone, Copy)]
struct Unmade<'m, 'f> {
    made: &'m Made<'f>,
    formula: &'m str,
}

/// Tells of an action in the formula of this name, if no rule has it.
fn tell_action(
    alloc: Global,
    lines: &mut Texts,
    made: &Made,
    formula: &str,
    action: &WrittenAction,
) -> Result<(), AllocError>
    ensures { OnOk result (texts_of lines.new ≡ lines_after (texts_of lines.old) (at_action (made_of made.now) formula.now (parts.action_of action.now))) }
{
    let form = action_form(action);
    let is_missing = !made.has(form);
    tell_if(
        alloc,
        lines,
        is_missing,
        Warning::InNoRule(formula, form.symbol, form.arity),
    )
}

// What is told of an atom, whatever binds its variables.
impl<'m, 'f> Collects<Texts> for Unmade<'m, 'f> {
    ghost Item = { warnings.Warning };

    ghost Seen = { List (List ℕ) };

    ghost seen_of = { λ lines. texts_of lines };

    ghost gives = { λ t bs. at_atom (made_of t.made.now) t.formula.now };

    ghost after = { lines_after };

    fn collect<'a>(
        &self,
        alloc: Global,
        lines: &mut Texts,
        _binders: &Vec<WrittenVariable<'a>>,
        atom: ReadAtom<'_, 'a>,
    ) -> Result<(), AllocError> {
        match atom {
            ReadAtom::Happens(action, _) => {
                tell_action(alloc, lines, self.made, self.formula, action)
            }
            ReadAtom::Equals(_, _) | ReadAtom::Precedes(_, _) => Ok(()),
        }
    }

    ghost none_changes = { λ ls. refl };

    ghost one_by_one = { told_both };

    ghost not_again = { both_orders };
}

/// Tells of each action in the formula of this name that no rule has.
fn tell_formula(
    alloc: Global,
    lines: &mut Texts,
    made: &Made,
    name: &str,
    formula: &ReadFormula,
) -> Result<(), AllocError>
    ensures { OnOk result (texts_of lines.new ≡ lines_after (texts_of lines.old) (actions_of_formula (made_of made.now) name.now (written.formula formula.now))) }
{
    let unmade = Unmade {
        made,
        formula: name,
    };
    collect_closed(alloc, &unmade, lines, formula)
}

/// The same in the item, if it is a restriction or a lemma.
fn tell_item(alloc: Global, lines: &mut Texts, made: &Made, item: &Item) -> Result<(), AllocError>
    ensures { OnOk result (texts_of lines.new ≡ lines_after (texts_of lines.old) (actions_of_item (made_of made.now) (view.item item.now))) }
{
    match item {
        Item::Restriction(restriction) => {
            tell_formula(alloc, lines, made, restriction.name, &restriction.formula)
        }
        Item::Lemma(lemma) => tell_formula(alloc, lines, made, lemma.name, &lemma.formula),
        _ => Ok(()),
    }
}

/// Tells of each action in restrictions and lemmas that no rule has.
pub fn tell_actions(
    alloc: Global,
    lines: &mut Texts,
    made: &Made,
    items: &Vec<Item>,
) -> Result<(), AllocError>
    ensures { OnOk result (texts_of lines.new ≡ lines_after (texts_of lines.old) (flat_map (actions_of_item (made_of made.now)) (view.items items.now.items))) }
{
    for item in items {
        tell_item(alloc, lines, made, item)?;
    }
    Ok(())
}
