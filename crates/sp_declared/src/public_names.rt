// The public names of a theory, each once.

ghost use Rattle.std.specs.Prelude.{◌≡◌, ℕ, List, ◌∷◌, [], ◌++◌, IfOk, OnOk, map, refl};
ghost use Rattle.sp_spec.specs.Written.{is_listed};
ghost use Rattle.sp_term.specs.View.{name_of};
ghost use Rattle.sp_read_parts.specs.Views as parts;
ghost use Rattle.sp_read_parts.specs.Formulas as written;
ghost use Rattle.sp_spec_text.specs.Written.{restrictions_in, lemmas_in};
ghost use Rattle.sp_written.specs.Views as view;
ghost use Rattle.sp_spec.specs.Constants as spec;
ghost use Rattle.sp_spec.specs.Constants.{once_after};
ghost use Rattle.sp_declared.specs.OnceLaws.{once_both, both_orders};
ghost use Rattle.sp_declared.specs.Constants.{constants_in, names_at};
ghost use Rattle.sp_declared.specs.WrittenRules.{rules_written};

use sp_read_parts::{
    ReadFormula, WrittenAction, WrittenFact, WrittenRule, WrittenTerm, WrittenVariable,
};
use sp_term::term::{Name, Term};
use sp_walk::{Collects, ReadAtom, collect_closed};
use sp_written::{Item, ReadTheory};
use std::alloc::{AllocError, Global};

/// Whether the name is one of these.
fn is_among(name: &Name, names: &Vec<Name>) -> bool
    ensures { result ≡ is_listed (name_of name.now) (map name_of names.now.items) }
{
    for other in names {
        if *other == *name {
            return true;
        }
    }
    false
}

/// Puts the name at the end, unless it is there.
fn see(seen: &mut Vec<Name>, name: &Name) -> Result<(), AllocError>
    ensures { OnOk result (map name_of seen.new.items ≡ once_after (map name_of seen.old.items) (name_of name.now ∷ [])) }
{
    if is_among(name, seen) {
        return Ok(());
    }
    seen.push(name.clone()?)?;
    Ok(())
}

/// Puts the public names of a term at the end, each unless it is there.
#[cycle(names)]
fn see_term(seen: &mut Vec<Name>, term: &WrittenTerm) -> Result<(), AllocError>
    ensures { OnOk result (map name_of seen.new.items ≡ once_after (map name_of seen.old.items) (spec.in_term (parts.term term.now))) }
{
    match term {
        Term::Var(_) | Term::FreshName(_) => Ok(()),
        Term::Constant(name) => see(seen, name),
        Term::App(_, terms, _) => see_terms(seen, terms),
    }
}

/// Puts the names of terms at the end, each unless it is there.
#[cycle(names)]
fn see_terms(seen: &mut Vec<Name>, terms: &Vec<WrittenTerm>) -> Result<(), AllocError>
    ensures { OnOk result (map name_of seen.new.items ≡ once_after (map name_of seen.old.items) (spec.in_terms (parts.terms terms.now.items))) }
{
    for term in terms {
        see_term(seen, term)?;
    }
    Ok(())
}

/// Puts the names of both sides of an equality at the end, each unless it is there.
#[tactic(auto, using(crate::specs::OnceLaws::once_both))]
fn see_sides(
    seen: &mut Vec<Name>,
    left: &WrittenTerm,
    right: &WrittenTerm,
) -> Result<(), AllocError>
    ensures { OnOk result (map name_of seen.new.items ≡ once_after (map name_of seen.old.items) (spec.in_term (parts.term left.now) ++ spec.in_term (parts.term right.now))) }
{
    see_term(seen, left)?;
    see_term(seen, right)?;
    Ok(())
}

/// Puts the names of facts at the end, each unless it is there.
fn see_facts(seen: &mut Vec<Name>, facts: &Vec<WrittenFact>) -> Result<(), AllocError>
    ensures { OnOk result (map name_of seen.new.items ≡ once_after (map name_of seen.old.items) (spec.in_facts (parts.facts_of facts.now.items))) }
{
    for fact in facts {
        see_terms(seen, &fact.args)?;
    }
    Ok(())
}

/// Puts the names of actions at the end, each unless it is there.
fn see_actions(seen: &mut Vec<Name>, actions: &Vec<WrittenAction>) -> Result<(), AllocError>
    ensures { OnOk result (map name_of seen.new.items ≡ once_after (map name_of seen.old.items) (spec.in_actions (map parts.action_of actions.now.items))) }
{
    for action in actions {
        see_terms(seen, &action.args)?;
    }
    Ok(())
}

/// Puts the names of a rule's premises, actions and conclusions at the end, each unless it is there.
#[tactic(auto, using(crate::proofs::Once::once_three))]
fn see_rule(seen: &mut Vec<Name>, rule: &WrittenRule) -> Result<(), AllocError>
    ensures { OnOk result (map name_of seen.new.items ≡ once_after (map name_of seen.old.items) (spec.in_rule (parts.rule rule.now))) }
{
    see_facts(seen, &rule.facts.premises)?;
    see_actions(seen, &rule.facts.actions)?;
    see_facts(seen, &rule.facts.conclusions)?;
    Ok(())
}

/// The public names of atoms.
#[derive(Clone, Copy)]
struct PublicNames;

// The names of an atom are put at the end, each unless it is there.
impl Collects<Vec<Name>> for PublicNames {
    ghost Item = { List ℕ };

    ghost Seen = { List (List ℕ) };

    ghost seen_of = { λ seen. map name_of seen.items };

    ghost gives = { λ t bs. names_at };

    ghost after = { once_after };

    fn collect<'a>(
        &self,
        _alloc: Global,
        seen: &mut Vec<Name>,
        _binders: &Vec<WrittenVariable<'a>>,
        atom: ReadAtom<'_, 'a>,
    ) -> Result<(), AllocError> {
        match atom {
            ReadAtom::Happens(action, _) => see_terms(seen, &action.args),
            ReadAtom::Equals(left, right) => see_sides(seen, left, right),
            ReadAtom::Precedes(_, _) => Ok(()),
        }
    }

    ghost none_changes = { λ ls. refl };

    ghost one_by_one = { λ ls xs ys. once_both xs ls ys };

    ghost not_again = { λ ls xs ys. both_orders xs ys ls };
}

/// Puts the names of a formula at the end, each unless it is there.
fn see_formula(alloc: Global, seen: &mut Vec<Name>, formula: &ReadFormula) -> Result<(), AllocError>
    ensures { OnOk result (map name_of seen.new.items ≡ once_after (map name_of seen.old.items) (spec.in_formula (written.formula formula.now))) }
{
    collect_closed(alloc, &PublicNames, seen, formula)
}

/// Puts the names of the item, if it is a rule, at the end, each unless it is there.
fn see_if_rule(seen: &mut Vec<Name>, item: &Item) -> Result<(), AllocError>
    ensures { OnOk result (map name_of seen.new.items ≡ once_after (map name_of seen.old.items) (spec.in_rules (rules_written (view.item item.now ∷ [])))) }
{
    match item {
        Item::Rule(bound) => see_rule(seen, &bound.rule),
        _ => Ok(()),
    }
}

/// Puts the names of the item, if it is a restriction, at the end, each unless it is there.
fn see_if_restriction(alloc: Global, seen: &mut Vec<Name>, item: &Item) -> Result<(), AllocError>
    ensures { OnOk result (map name_of seen.new.items ≡ once_after (map name_of seen.old.items) (spec.in_restrictions (restrictions_in (view.item item.now ∷ [])))) }
{
    match item {
        Item::Restriction(restriction) => see_formula(alloc, seen, &restriction.formula),
        _ => Ok(()),
    }
}

/// Puts the names of the item, if it is a lemma, at the end, each unless it is there.
fn see_if_lemma(alloc: Global, seen: &mut Vec<Name>, item: &Item) -> Result<(), AllocError>
    ensures { OnOk result (map name_of seen.new.items ≡ once_after (map name_of seen.old.items) (spec.in_lemmas (lemmas_in (view.item item.now ∷ [])))) }
{
    match item {
        Item::Lemma(lemma) => see_formula(alloc, seen, &lemma.formula),
        _ => Ok(()),
    }
}

/// Puts the names of the rules at the end, each unless it is there.
fn see_rules(seen: &mut Vec<Name>, items: &Vec<Item>) -> Result<(), AllocError>
    ensures { OnOk result (map name_of seen.new.items ≡ once_after (map name_of seen.old.items) (spec.in_rules (rules_written (view.items items.now.items)))) }
{
    for item in items {
        see_if_rule(seen, item)?;
    }
    Ok(())
}

/// Puts the names of the restrictions at the end, each unless it is there.
fn see_restrictions(
    alloc: Global,
    seen: &mut Vec<Name>,
    items: &Vec<Item>,
) -> Result<(), AllocError>
    ensures { OnOk result (map name_of seen.new.items ≡ once_after (map name_of seen.old.items) (spec.in_restrictions (restrictions_in (view.items items.now.items)))) }
{
    for item in items {
        see_if_restriction(alloc, seen, item)?;
    }
    Ok(())
}

/// Puts the names of the lemmas at the end, each unless it is there.
fn see_lemmas(alloc: Global, seen: &mut Vec<Name>, items: &Vec<Item>) -> Result<(), AllocError>
    ensures { OnOk result (map name_of seen.new.items ≡ once_after (map name_of seen.old.items) (spec.in_lemmas (lemmas_in (view.items items.now.items)))) }
{
    for item in items {
        see_if_lemma(alloc, seen, item)?;
    }
    Ok(())
}

/// The public names that stand in these items, those of rules first, then those of restrictions, each once.
#[tactic(auto, using(crate::proofs::Once::once_three))]
fn names_in(alloc: Global, items: &Vec<Item>) -> Result<Vec<Name>, AllocError>
    ensures { IfOk result (λ names. map name_of names.items ≡ constants_in (view.items items.now.items)) }
{
    let mut seen = Vec::new(alloc);
    see_rules(&mut seen, items)?;
    see_restrictions(alloc, &mut seen, items)?;
    see_lemmas(alloc, &mut seen, items)?;
    Ok(seen)
}

/// The public names that stand in the theory's items, those of rules first, then those of restrictions, each once, in the order in which they first
/// stand. Of a rule with bindings the names in its facts count, as they are written.
///
/// # Errors
///
/// `AllocError` where memory is wanting.
pub fn constants(alloc: Global, theory: &ReadTheory) -> Result<Vec<Name>, AllocError>
    ensures { IfOk result (λ names. map name_of names.items ≡ constants_in (view.items theory.now.items.items)) }
{
    names_in(alloc, &theory.items)
}
