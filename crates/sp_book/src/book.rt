// The rules of a proof, with indexes of them by the actions and by the conclusions that their forms have.

ghost use Rattle.std.specs.Prelude.{◌≡◌, List, ℕ, ◌-◌, length, OnOk, IfOk, map, option_map, slice_get, bytes_eq, if◌then◌else◌};
ghost use Rattle.sp_term.specs.View.{name_of};
ghost use Rattle.sp_fact.specs.View.{action_of, fact_of};
ghost use Rattle.sp_book.specs.View.{form_of, rule_forms_of};
ghost use Rattle.sp_book.specs.Book.{
  action_names,
  fact_names,
  shown_names,
  given_names,
  places,
  givers,
  listed,
  last_is,
  noted,
  noted_each,
  noted_forms,
};

use crate::form::RuleForms;
use sp_fact::fact::{Action, Fact};
use sp_term::term::Name;
use std::alloc::{AllocError, Global};
use std::collections::BTreeMap;

/// The rules of a proof; those a form of which has an action of a name, or a conclusion of a name, are found without going over all of them.
#[derive(Drop)]
pub struct RuleBook {
    /// the rules, in the order of the theory
    pub rules: Vec<RuleForms>,
    // the places of the rules a form of which has an action of the name, rising
    by_action: BTreeMap<String, Vec<usize>>,
    // the places of the rules a form of which has a conclusion of the name, rising
    by_conclusion: BTreeMap<String, Vec<usize>>,
    ghost is_exact: { (symbol : List ℕ) → listed by_action symbol ≡ places symbol 0 (map rule_forms_of rules.items) },
    ghost is_exact_of_conclusions: { (symbol : List ℕ) → listed by_conclusion symbol ≡ givers symbol 0 (map rule_forms_of rules.items) },
}

fn ends_in(places: &Vec<usize>, place: usize) -> bool
    ensures { result ≡ last_is place (slice_get places.now.items (length places.now.items - 1)) }
{
    match places.last() {
        Some(last) => *last == place,
        None => false,
    }
}

fn note_place(places: &mut Vec<usize>, place: usize) -> Result<(), AllocError>
    ensures { OnOk result (places.new.items ≡ noted place places.old.items) }
{
    if !ends_in(places, place) {
        places.push(place)?;
    }
    Ok(())
}

// A rule may have two actions of a name, or two conclusions: its place is listed once.
fn note(
    alloc: Global,
    index: &mut BTreeMap<String, Vec<usize>>,
    symbol: &Name,
    place: usize,
) -> Result<(), AllocError>
    ensures { OnOk result ((q : List ℕ) → listed index.new q
        ≡ (if bytes_eq q (name_of symbol.now) then noted place (listed index.old q) else listed index.old q)) }
{
    let name = String::from_str(alloc, symbol.text.as_str())?;
    let places = index.entry(name)?.or_default();
    note_place(places, place)?;
    Ok(())
}

fn note_actions(
    alloc: Global,
    by_action: &mut BTreeMap<String, Vec<usize>>,
    actions: &Vec<Action>,
    place: usize,
) -> Result<(), AllocError>
    ensures { OnOk result ((q : List ℕ) → listed by_action.new q
        ≡ noted_each place q (action_names (map action_of actions.now.items)) (listed by_action.old q)) }
{
    for action in actions {
        note(alloc, by_action, &action.symbol, place)?;
    }
    Ok(())
}

fn note_conclusions(
    alloc: Global,
    by_conclusion: &mut BTreeMap<String, Vec<usize>>,
    conclusions: &Vec<Fact>,
    place: usize,
) -> Result<(), AllocError>
    ensures { OnOk result ((q : List ℕ) → listed by_conclusion.new q
        ≡ noted_each place q (fact_names (map fact_of conclusions.now.items)) (listed by_conclusion.old q)) }
{
    for conclusion in conclusions {
        note(alloc, by_conclusion, &conclusion.symbol, place)?;
    }
    Ok(())
}

fn note_shown(
    alloc: Global,
    by_action: &mut BTreeMap<String, Vec<usize>>,
    rule: &RuleForms,
    place: usize,
) -> Result<(), AllocError>
    ensures { OnOk result ((q : List ℕ) → listed by_action.new q
        ≡ noted_forms shown_names place q (map form_of rule.now.forms.items) (listed by_action.old q)) }
{
    for form in &rule.forms {
        note_actions(alloc, by_action, &form.facts.actions, place)?;
    }
    Ok(())
}

fn note_given(
    alloc: Global,
    by_conclusion: &mut BTreeMap<String, Vec<usize>>,
    rule: &RuleForms,
    place: usize,
) -> Result<(), AllocError>
    ensures { OnOk result ((q : List ℕ) → listed by_conclusion.new q
        ≡ noted_forms given_names place q (map form_of rule.now.forms.items) (listed by_conclusion.old q)) }
{
    for form in &rule.forms {
        note_conclusions(alloc, by_conclusion, &form.facts.conclusions, place)?;
    }
    Ok(())
}

impl RuleBook {
    /// The book of these rules.
    ///
    /// # Errors
    ///
    /// `AllocError` where memory is wanting.
    pub fn new(alloc: Global, rules: Vec<RuleForms>) -> Result<RuleBook, AllocError>
        ensures { IfOk result (λ b. map rule_forms_of b.rules.items ≡ map rule_forms_of rules.items) }
    {
        let mut by_action = BTreeMap::new(alloc);
        let mut by_conclusion = BTreeMap::new(alloc);
        for (place, rule) in rules.iter().enumerate() {
            note_shown(alloc, &mut by_action, rule, place)?;
            note_given(alloc, &mut by_conclusion, rule, place)?;
        }
        Ok(RuleBook {
            rules,
            by_action,
            by_conclusion,
        })
    }

    /// The places of the rules a form of which has an action of this name, rising.
    pub fn places(&self, symbol: &Name) -> &[usize]
        ensures { result.now ≡ places (name_of symbol.now) 0 (map rule_forms_of self.now.rules.items) }
    {
        match self.by_action.get(symbol.text.as_str()) {
            Some(places) => places,
            None => &[],
        }
    }

    /// The places of the rules a form of which has a conclusion of this name, rising: no other rule gives a fact of the name.
    pub fn givers(&self, symbol: &Name) -> &[usize]
        ensures { result.now ≡ givers (name_of symbol.now) 0 (map rule_forms_of self.now.rules.items) }
    {
        match self.by_conclusion.get(symbol.text.as_str()) {
            Some(places) => places,
            None => &[],
        }
    }
}
