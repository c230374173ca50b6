// The public constants of a theory, in the order of the text.

ghost use Rattle.std.specs.Prelude.{◌≡◌, ◌++◌, ◌∷◌, [], ℕ, List, IfOk, OnOk, map, string_bytes, refl};
ghost use Rattle.std.specs.List.{flat_map};
ghost use Rattle.sp_term.specs.View.{name_of};
ghost use Rattle.sp_read_parts.specs.Views as parts;
ghost use Rattle.sp_read_parts.specs.Formulas as written;
ghost use Rattle.sp_spec.specs.Constants as spec;
ghost use Rattle.sp_spec.specs.Constants.{once_after};
ghost use Rattle.sp_written.specs.Views as view;
ghost use Rattle.sp_declared.specs.Constants.{names_at};
ghost use Rattle.sp_declared.specs.OnceLaws.{once_both, both_orders};
ghost use Rattle.sp_warn.specs.Constants as warn;
ghost use Rattle.sp_lines.specs.TextsView.{texts_of};

use sp_lines::Texts;
use sp_read_parts::{
    ReadFormula, WrittenAction, WrittenFact, WrittenRule, WrittenTerm, WrittenVariable,
};
use sp_term::term::{Name, Term};
use sp_walk::{Collects, ReadAtom, collect_closed};
use sp_written::{Item, WrittenEquation};
use std::alloc::{AllocError, Global};

/// Puts the constant at the end, unless it is there.
fn see_constant(alloc: Global, seen: &mut Texts, constant: &Name) -> Result<(), AllocError>
    ensures { OnOk result (texts_of seen.new ≡ once_after (texts_of seen.old) (name_of constant.now ∷ [])) }
{
    seen.see(String::from_str(alloc, constant.text.as_str())?)?;
    Ok(())
}

/// Puts the constants of a term at the end, each unless it is there.
#[cycle(terms)]
fn see_term(alloc: Global, seen: &mut Texts, term: &WrittenTerm) -> Result<(), AllocError>
    ensures { OnOk result (texts_of seen.new ≡ once_after (texts_of seen.old) (spec.in_term (parts.term term.now))) }
{
    match term {
        Term::Var(_) | Term::FreshName(_) => Ok(()),
        Term::Constant(constant) => see_constant(alloc, seen, constant),
        Term::App(_, terms, _) => see_terms(alloc, seen, terms),
    }
}

/// Puts the constants of terms at the end, each unless it is there.
#[cycle(terms)]
fn see_terms(alloc: Global, seen: &mut Texts, terms: &Vec<WrittenTerm>) -> Result<(), AllocError>
    ensures { OnOk result (texts_of seen.new ≡ once_after (texts_of seen.old) (spec.in_terms (parts.terms terms.now.items))) }
{
    for term in terms {
        see_term(alloc, seen, term)?;
    }
    Ok(())
}

/// Puts the constants of two terms at the end, each unless it is there.
#[tactic(auto, using(sp_declared::specs::OnceLaws::once_both))]
fn see_sides(
    alloc: Global,
    seen: &mut Texts,
    left: &WrittenTerm,
    right: &WrittenTerm,
) -> Result<(), AllocError>
    ensures { OnOk result (texts_of seen.new ≡ once_after (texts_of seen.old) (spec.in_term (parts.term left.now) ++ spec.in_term (parts.term right.now))) }
{
    see_term(alloc, seen, left)?;
    see_term(alloc, seen, right)?;
    Ok(())
}

/// Puts the constants of facts at the end, each unless it is there.
fn see_facts(alloc: Global, seen: &mut Texts, facts: &Vec<WrittenFact>) -> Result<(), AllocError>
    ensures { OnOk result (texts_of seen.new ≡ once_after (texts_of seen.old) (spec.in_facts (parts.facts_of facts.now.items))) }
{
    for fact in facts {
        see_terms(alloc, seen, &fact.args)?;
    }
    Ok(())
}

/// Puts the constants of actions at the end, each unless it is there.
fn see_actions(
    alloc: Global,
    seen: &mut Texts,
    actions: &Vec<WrittenAction>,
) -> Result<(), AllocError>
    ensures { OnOk result (texts_of seen.new ≡ once_after (texts_of seen.old) (spec.in_actions (map parts.action_of actions.now.items))) }
{
    for action in actions {
        see_terms(alloc, seen, &action.args)?;
    }
    Ok(())
}

/// Puts the constants of a rule's premises, actions and conclusions at the end, each unless it is there.
#[tactic(auto, using(sp_declared::proofs::Once::once_three))]
fn see_rule(alloc: Global, seen: &mut Texts, rule: &WrittenRule) -> Result<(), AllocError>
    ensures { OnOk result (texts_of seen.new ≡ once_after (texts_of seen.old) (spec.in_rule (parts.rule rule.now))) }
{
    see_facts(alloc, seen, &rule.facts.premises)?;
    see_actions(alloc, seen, &rule.facts.actions)?;
    see_facts(alloc, seen, &rule.facts.conclusions)?;
    Ok(())
}

/// Puts the constants of equations at the end, each unless it is there.
fn see_equations(
    alloc: Global,
    seen: &mut Texts,
    equations: &Vec<WrittenEquation>,
) -> Result<(), AllocError>
    ensures { OnOk result (texts_of seen.new ≡ once_after (texts_of seen.old) (flat_map warn.in_equation (map view.equation equations.now.items))) }
{
    for equation in equations {
        see_sides(alloc, seen, &equation.left, &equation.right)?;
    }
    Ok(())
}

/// The constants of atoms.
#[derive(Clone, Copy)]
struct Constants;

// The constants of an atom are put at the end, each unless it is there.
impl Collects<Texts> for Constants {
    ghost Item = { List ℕ };

    ghost Seen = { List (List ℕ) };

    ghost seen_of = { λ seen. texts_of seen };

    ghost gives = { λ t bs. names_at };

    ghost after = { once_after };

    fn collect<'a>(
        &self,
        alloc: Global,
        seen: &mut Texts,
        _binders: &Vec<WrittenVariable<'a>>,
        atom: ReadAtom<'_, 'a>,
    ) -> Result<(), AllocError> {
        match atom {
            ReadAtom::Happens(action, _) => see_terms(alloc, seen, &action.args),
            ReadAtom::Equals(left, right) => see_sides(alloc, seen, left, right),
            ReadAtom::Precedes(_, _) => Ok(()),
        }
    }

    ghost none_changes = { λ ls. refl };

    ghost one_by_one = { λ ls xs ys. once_both xs ls ys };

    ghost not_again = { λ ls xs ys. both_orders xs ys ls };
}

/// Puts the constants of a formula at the end, each unless it is there.
fn see_formula(alloc: Global, seen: &mut Texts, formula: &ReadFormula) -> Result<(), AllocError>
    ensures { OnOk result (texts_of seen.new ≡ once_after (texts_of seen.old) (spec.in_formula (written.formula formula.now))) }
{
    collect_closed(alloc, &Constants, seen, formula)
}

/// Puts the constants of an item at the end, each unless it is there.
fn see_item(alloc: Global, seen: &mut Texts, item: &Item) -> Result<(), AllocError>
    ensures { OnOk result (texts_of seen.new ≡ once_after (texts_of seen.old) (warn.in_item (view.item item.now))) }
{
    match item {
        Item::Equations(equations) => see_equations(alloc, seen, equations),
        Item::Rule(bound) => see_rule(alloc, seen, &bound.rule),
        Item::Restriction(restriction) => see_formula(alloc, seen, &restriction.formula),
        Item::Lemma(lemma) => see_formula(alloc, seen, &lemma.formula),
        _ => Ok(()),
    }
}

/// The public constants of these items, each once, in the order in which they first stand.
pub fn constants_in(alloc: Global, items: &Vec<Item>) -> Result<Vec<String>, AllocError>
    ensures { IfOk result (λ cs. map string_bytes cs.items ≡ warn.constants_in (view.items items.now.items)) }
{
    let mut seen = Texts::new(alloc);
    for item in items {
        see_item(alloc, &mut seen, item)?;
    }
    seen.into_vec(alloc)
}
