// One more event than those that a system has, or none.

ghost use Rattle.std.specs.Prelude.{◌≡◌, ◌++◌, ◌∷◌, [], IfOk, codes, map, option_map, suc, true};
ghost use Rattle.sp_spec.specs.Signature.{msg};
ghost use Rattle.sp_spec_system.specs.System as system_spec;
ghost use Rattle.sp_spec_graph.specs.More as spec;
ghost use Rattle.sp_term.specs.View.{name_of, view};
ghost use Rattle.sp_book.specs.View.{form_of, rule_forms_of};
ghost use Rattle.sp_book.specs.BookView.{book_of};
ghost use Rattle.sp_formula.specs.FormulaView.{formula_of};
ghost use Rattle.sp_system.specs.SystemView.{event_of, system_of};
ghost use Rattle.sp_moves.specs.View.{case_of};
ghost use Rattle.sp_moves_decide.specs.Another.{by_rule, with_event};

use sp_book::book::RuleBook;
use sp_book::form::{Form, RuleForms};
use sp_formula::formula::{Atom, Formula, Moment};
use sp_formula::shared::SharedFormula;
use sp_learnings::learning::after;
use sp_moves::moves::Case;
use sp_moves::named::named;
use sp_moves::renamed::renamed;
use sp_system::event::Event;
use sp_system::system::System;
use sp_system::way::Way;
use sp_term::term::{Name, Sort, Term, Variable};
use std::alloc::{AllocError, Global};

// The time is not that of the event.
fn apart_from(time: u128, event: &Event) -> Formula
    ensures { formula_of result ≡ spec.apart_from time (event_of event.now) }
{
    Formula::Fails(Atom::SameTime(Moment::Free(time), Moment::Free(event.time)))
}

// The time is none of those of the events.
fn apart_from_each(
    alloc: Global,
    time: u128,
    events: &Vec<Event>,
) -> Result<Vec<SharedFormula>, AllocError>
    ensures { IfOk result (λ fs. map formula_of fs.items ≡ map (spec.apart_from time) (map event_of events.now.items)) }
{
    let mut made = Vec::with_capacity(alloc, events.len())?;
    for event in events {
        made.push(SharedFormula::new(alloc, apart_from(time, event))?)?;
    }
    Ok(made)
}

// The system with the event too, whose time is its next number, and with so many new variables behind it.
fn with_event(
    alloc: Global,
    system: &System,
    event: Event,
    count: usize,
) -> Result<System, AllocError>
    ensures { IfOk result (λ s. system_of s ≡ with_event (system_of system.now) (event_of event) count) }
{
    let first = after(system.next)?;
    let Some(next) = first.checked_add(count as u128) else {
        return Err(AllocError);
    };
    let apart = apart_from_each(alloc, system.next, &system.events)?;
    let mut made = system.clone()?;
    made.events.push(alloc, event)?;
    made.formulas.append(alloc, apart)?;
    made.next = next;
    Ok(made)
}

// One more step by a form of the rule of this name.
fn another_step(
    alloc: Global,
    system: &System,
    name: &Name,
    form: &Form,
) -> Result<System, AllocError>
    ensures { IfOk result (λ s. system_of s ≡ spec.another_step (system_of system.now) (name_of name.now) (form_of form.now)) }
{
    let first = after(system.next)?;
    let facts = renamed(alloc, first, &form.facts)?;
    let event = Event::step(alloc, system.next, name.clone()?, facts)?;
    let made = with_event(alloc, system, event, form.count)?;
    Ok(made)
}

// By each form of the rule, in their order.
fn by_forms(alloc: Global, system: &System, rule: &RuleForms) -> Result<Vec<System>, AllocError>
    ensures { IfOk result (λ ss. map system_of ss.items
        ≡ map (spec.another_step (system_of system.now) (name_of rule.now.name)) (map form_of rule.now.forms.items)) }
{
    let mut made = Vec::with_capacity(alloc, rule.forms.len())?;
    for form in &rule.forms {
        made.push(another_step(alloc, system, &rule.name, form)?)?;
    }
    Ok(made)
}

fn by_rule(alloc: Global, system: &System, rule: &RuleForms) -> Result<Vec<Case>, AllocError>
    ensures { IfOk result (λ cs. map case_of cs.items ≡ by_rule (rule_forms_of rule.now) (system_of system.now)) }
{
    let systems = by_forms(alloc, system, rule)?;
    let made = named(alloc, &rule.name, systems)?;
    Ok(made)
}

fn each_step(alloc: Global, rules: &RuleBook, system: &System) -> Result<Vec<Case>, AllocError>
    ensures { IfOk result (λ cs. map case_of cs.items ≡ spec.each_step (book_of rules.now) (system_of system.now)) }
{
    let mut made = Vec::new(alloc);
    for rule in &rules.rules {
        let mut cases = by_rule(alloc, system, rule)?;
        made.append(&mut cases)?;
    }
    Ok(made)
}

// The message variable of the number behind the next one.
fn new_message(system: &System) -> Result<Term, AllocError>
    ensures { IfOk result (λ t. view t ≡ msg (suc system.now.next)) }
{
    let number = after(system.next)?;
    Ok(Term::Var(Variable {
        sort: Sort::Msg,
        number,
    }))
}

// The case of this name, in which the system has the event too, over one new variable.
fn done(alloc: Global, system: &System, name: &str, event: Event) -> Result<Case, AllocError>
    ensures { IfOk result (λ c. case_of c ≡ record { name = name.now; system = with_event (system_of system.now) (event_of event) 1 }) }
{
    let made = with_event(alloc, system, event, 1)?;
    let name = String::from_str(alloc, name)?;
    Ok(Case { name, system: made })
}

fn sent(alloc: Global, system: &System) -> Result<Case, AllocError>
    ensures { IfOk result (λ c. case_of c
        ≡ record { name = codes "Send"; system = spec.with_another (system_of system.now) (system_spec.sending (msg (suc system.now.next))) 1 }) }
{
    let event = Event::send(alloc, system.next, new_message(system)?)?;
    let made = done(alloc, system, "Send", event)?;
    Ok(made)
}

fn learnt(alloc: Global, system: &System) -> Result<Case, AllocError>
    ensures { IfOk result (λ c. case_of c
        ≡ record { name = codes "Learn"; system = spec.with_another (system_of system.now) (system_spec.learning (msg (suc system.now.next)) system_spec.anyhow) 1 }) }
{
    let event = Event::learn(alloc, system.next, new_message(system)?, Way::Anyhow)?;
    let made = done(alloc, system, "Learn", event)?;
    Ok(made)
}

fn closed(alloc: Global, system: &System) -> Result<Case, AllocError>
    ensures { IfOk result (λ c. case_of c ≡ record { name = codes "closed"; system = system_spec.with_closed (system_of system.now) true }) }
{
    let mut made = system.clone()?;
    made.closed = true;
    let name = String::from_str(alloc, "closed")?;
    Ok(Case { name, system: made })
}

// What the adversary does more.
fn by_adversary(alloc: Global, system: &System) -> Result<Vec<Case>, AllocError>
    ensures { IfOk result (λ cs. map case_of cs.items
        ≡ record { name = codes "Send"; system = spec.with_another (system_of system.now) (system_spec.sending (msg (suc system.now.next))) 1 }
        ∷ record { name = codes "Learn"; system = spec.with_another (system_of system.now) (system_spec.learning (msg (suc system.now.next)) system_spec.anyhow) 1 } ∷ []) }
{
    let mut made = Vec::new(alloc);
    made.push(sent(alloc, system)?)?;
    made.push(learnt(alloc, system)?)?;
    Ok(made)
}

fn each_way(alloc: Global, rules: &RuleBook, system: &System) -> Result<Vec<Case>, AllocError>
    ensures { IfOk result (λ cs. map case_of cs.items
        ≡ record { name = codes "closed"; system = system_spec.with_closed (system_of system.now) true }
        ∷ (spec.each_step (book_of rules.now) (system_of system.now)
        ++ record { name = codes "Send"; system = spec.with_another (system_of system.now) (system_spec.sending (msg (suc system.now.next))) 1 }
        ∷ record { name = codes "Learn"; system = spec.with_another (system_of system.now) (system_spec.learning (msg (suc system.now.next)) system_spec.anyhow) 1 } ∷ [])) }
{
    let mut made = Vec::new(alloc);
    made.push(closed(alloc, system)?)?;
    let mut steps = each_step(alloc, rules, system)?;
    made.append(&mut steps)?;
    let mut others = by_adversary(alloc, system)?;
    made.append(&mut others)?;
    Ok(made)
}

/// The cases in which nothing happens but at the system's events, and those in which something more does, before they are simplified; none where nothing
/// more happens already.
///
/// # Errors
///
/// `AllocError` where memory is wanting, or no number is left.
pub fn more_cases(
    alloc: Global,
    rules: &RuleBook,
    system: &System,
) -> Result<Option<Vec<Case>>, AllocError>
    ensures { IfOk result (λ o. option_map (λ cs. map case_of cs.items) o ≡ spec.more_cases (book_of rules.now) (system_of system.now)) }
{
    if system.closed {
        return Ok(None);
    }
    let made = each_way(alloc, rules, system)?;
    Ok(Some(made))
}
