// The steps that may give a premise.

ghost use Rattle.std.specs.Prelude.{◌≡◌, ⊤, IfOk, MatchOption, map, option_map, slice_get};
ghost use Rattle.sp_fact.specs.View.{fact_of};
ghost use Rattle.sp_term.specs.View.{name_of};
ghost use Rattle.sp_book.specs.View.{form_of, rule_forms_of};
ghost use Rattle.sp_book.specs.Book.{by_found};
ghost use Rattle.sp_book.specs.BookView.{book_of};
ghost use Rattle.sp_system.specs.SystemView.{system_of};
ghost use Rattle.sp_spec_graph.specs.Premise as spec;
ghost use Rattle.sp_spec_system.specs.Cases as cases_spec;
ghost use Rattle.sp_spec_system.specs.MakingOne as making_one;
ghost use Rattle.sp_moves.specs.View.{case_of};
ghost use Rattle.sp_moves_graph.specs.PremiseRules.{by_form, by_source};

use sp_book::book::RuleBook;
use sp_book::form::{Form, RuleForms};
use sp_fact::fact::Fact;
use sp_learnings::learning::after;
use sp_learnings::premise::{is_fresh, is_linked, is_received};
use sp_moves::moves::{Case, place_in};
use sp_moves::named::named;
use sp_moves::renamed::renamed;
use sp_moves::where_same::fact_unifier;
use sp_system::at_time::{event_at, premise_at};
use sp_system::event::Event;
use sp_system::system::{Link, System};
use sp_term::term::Name;
use std::alloc::{AllocError, Global};

/// A premise, by the time of its event and its place there, from 0.
#[derive(Clone, Copy)]
pub struct Premise {
    /// the time
    pub time: u128,
    /// the place
    pub place: usize,
}

impl Premise {
    /// The premise of this time and place, if the first event at the time has so many.
    pub fn named(system: &System, time: u128, place: u128) -> Option<Premise>
        ensures there { option_map (λ p. p.place) result ≡ option_map (λ f. place) (making_one.premise_at (system_of system.now).events time place) }
        ensures then { MatchOption result ⊤ (λ p. p.time ≡ time) }
    {
        let event = event_at(time, &system.events)?;
        let place = place_in(event.premises(), place)?;
        Some(Premise { time, place })
    }
}

/// The fact that is to have a step for its source: no Fr and no In, and without a link.
pub fn open_premise(system: &System, premise: Premise) -> Option<&Fact>
    ensures { option_map (λ f. fact_of f.now) result ≡ spec.open_premise (system_of system.now) premise.time premise.place }
{
    if is_linked(&system.links, premise.time, premise.place) {
        return None;
    }
    match premise_at(&system.events, premise.time, premise.place) {
        Some(fact) if !is_fresh(fact) && !is_received(fact) => Some(fact),
        _ => None,
    }
}

// The system with a new step by a form of the rule of this name, whose conclusion at the place is the premise.
fn with_source(
    alloc: Global,
    system: &System,
    premise: Premise,
    name: &Name,
    form: &Form,
    place: usize,
) -> Result<System, AllocError>
    ensures { IfOk result (λ s. system_of s
        ≡ spec.with_source (system_of system.now) premise.time premise.place (name_of name.now) (form_of form.now) place) }
{
    let first = after(system.next)?;
    let Some(next) = first.checked_add(form.count as u128) else {
        return Err(AllocError);
    };
    let time = system.next;
    let facts = renamed(alloc, first, &form.facts)?;
    let event = Event::step(alloc, time, name.clone()?, facts)?;
    let mut made = system.clone()?;
    made.events.push(alloc, event)?;
    let link = Link {
        from: time,
        conclusion: place,
        to: premise.time,
        premise: premise.place,
    };
    made.links.push(alloc, link)?;
    made.order.add(alloc, time, premise.time)?;
    made.next = next;
    Ok(made)
}

// The same, where the premise is that conclusion; none where it can't be.
fn given_by(
    alloc: Global,
    system: &System,
    premise: Premise,
    fact: &Fact,
    name: &Name,
    form: &Form,
    place: usize,
    conclusion: &Fact,
) -> Result<Option<System>, AllocError>
    ensures { IfOk result (λ o. option_map system_of o
        ≡ cases_spec.where_same_fact (spec.with_source (system_of system.now) premise.time premise.place (name_of name.now) (form_of form.now) place)
        (fact_of fact.now) (fact_of conclusion.now)) }
{
    let Some(subst) = fact_unifier(alloc, fact, conclusion)? else {
        return Ok(None);
    };
    let given = with_source(alloc, system, premise, name, form, place)?;
    let made = given.with_terms(alloc, &subst)?;
    Ok(Some(made))
}

fn by_conclusions(
    alloc: Global,
    system: &System,
    premise: Premise,
    fact: &Fact,
    name: &Name,
    form: &Form,
    conclusions: &Vec<Fact>,
) -> Result<Vec<System>, AllocError>
    ensures { IfOk result (λ ss. map system_of ss.items
        ≡ spec.by_conclusions (system_of system.now) premise.time premise.place (fact_of fact.now) (name_of name.now) (form_of form.now) 0 (map fact_of conclusions.now.items)) }
{
    let mut made = Vec::new(alloc);
    for (place, conclusion) in conclusions.iter().enumerate() {
        if let Some(system) = given_by(
            alloc, system, premise, fact, name, form, place, conclusion,
        )? {
            made.push(system)?;
        }
    }
    Ok(made)
}

// By one form of the rule.
fn by_form(
    alloc: Global,
    system: &System,
    premise: Premise,
    fact: &Fact,
    name: &Name,
    form: &Form,
) -> Result<Vec<System>, AllocError>
    ensures { IfOk result (λ ss. map system_of ss.items
        ≡ by_form (name_of name.now) (form_of form.now) (system_of system.now) premise.time premise.place (fact_of fact.now)) }
{
    let first = after(system.next)?;
    let facts = renamed(alloc, first, &form.facts)?;
    let systems = by_conclusions(alloc, system, premise, fact, name, form, &facts.conclusions)?;
    Ok(systems)
}

// By each form of the rule, in their order.
fn source_forms(
    alloc: Global,
    system: &System,
    premise: Premise,
    fact: &Fact,
    rule: &RuleForms,
) -> Result<Vec<System>, AllocError>
    ensures { IfOk result (λ ss. map system_of ss.items
        ≡ spec.source_forms (name_of rule.now.name) (map form_of rule.now.forms.items) (system_of system.now) premise.time premise.place (fact_of fact.now)) }
{
    let mut made = Vec::new(alloc);
    for form in &rule.forms {
        let mut systems = by_form(alloc, system, premise, fact, &rule.name, form)?;
        made.append(&mut systems)?;
    }
    Ok(made)
}

fn by_source(
    alloc: Global,
    system: &System,
    premise: Premise,
    fact: &Fact,
    rule: &RuleForms,
) -> Result<Vec<Case>, AllocError>
    ensures { IfOk result (λ cs. map case_of cs.items ≡ by_source (rule_forms_of rule.now) (system_of system.now) premise.time premise.place (fact_of fact.now)) }
{
    let systems = source_forms(alloc, system, premise, fact, rule)?;
    let made = named(alloc, &rule.name, systems)?;
    Ok(made)
}

fn by_place(
    alloc: Global,
    rules: &RuleBook,
    system: &System,
    premise: Premise,
    fact: &Fact,
    place: usize,
) -> Result<Vec<Case>, AllocError>
    ensures { IfOk result (λ cs. map case_of cs.items
        ≡ by_found (λ r. by_source r (system_of system.now) premise.time premise.place (fact_of fact.now)) (slice_get (book_of rules.now) place)) }
{
    match rules.rules.get(place) {
        Some(rule) => by_source(alloc, system, premise, fact, rule),
        None => Ok(Vec::new(alloc)),
    }
}

// A rule without a conclusion of the fact's name, as most are, gives no case and isn't looked at.
fn by_each_source(
    alloc: Global,
    rules: &RuleBook,
    system: &System,
    premise: Premise,
    fact: &Fact,
) -> Result<Vec<Case>, AllocError>
    ensures { IfOk result (λ cs. map case_of cs.items ≡ spec.by_each_source (book_of rules.now) (system_of system.now) premise.time premise.place (fact_of fact.now)) }
{
    let mut made = Vec::new(alloc);
    for place in rules.givers(&fact.symbol) {
        let mut cases = by_place(alloc, rules, system, premise, fact, *place)?;
        made.append(&mut cases)?;
    }
    Ok(made)
}

fn cases_of(
    alloc: Global,
    rules: &RuleBook,
    system: &System,
    premise: Premise,
) -> Result<Option<Vec<Case>>, AllocError>
    ensures { IfOk result (λ o. option_map (λ cs. map case_of cs.items) o
        ≡ spec.premise_cases (book_of rules.now) (system_of system.now) premise.time premise.place (spec.open_premise (system_of system.now) premise.time premise.place)) }
{
    let Some(fact) = open_premise(system, premise) else {
        return Ok(None);
    };
    let made = by_each_source(alloc, rules, system, premise, fact)?;
    Ok(Some(made))
}

/// A case for each conclusion of each form of each rule that may be the premise, before they are simplified; none where the premise isn't to have a
/// step for its source.
///
/// # Errors
///
/// `AllocError` where memory is wanting, or no number is left.
pub fn premise_cases(
    alloc: Global,
    rules: &RuleBook,
    system: &System,
    time: u128,
    place: u128,
) -> Result<Option<Vec<Case>>, AllocError>
    ensures { IfOk result (λ o. option_map (λ cs. map case_of cs.items) o
        ≡ spec.premise_cases (book_of rules.now) (system_of system.now) time place (spec.open_premise (system_of system.now) time place)) }
{
    let Some(premise) = Premise::named(system, time, place) else {
        return Ok(None);
    };
    let made = cases_of(alloc, rules, system, premise)?;
    Ok(made)
}
