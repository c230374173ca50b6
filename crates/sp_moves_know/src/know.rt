// How a message is learnt.

ghost use Rattle.std.specs.Prelude.{◌≡◌, ◌||◌, not, [], ◌∷◌, IfOk, OnOk, map, option_map, is_none};
ghost use Rattle.sp_spec.specs.Term.{app, count};
ghost use Rattle.sp_spec.specs.Destruction.{is_public};
ghost use Rattle.sp_term.specs.View.{name_of, view, view_all};
ghost use Rattle.sp_fact.specs.View.{fact_of};
ghost use Rattle.sp_fact.specs.GroundView.{signature_of, symbol_of};
ghost use Rattle.sp_book.specs.View.{form_of, rule_forms_of};
ghost use Rattle.sp_book.specs.BookView.{book_of};
ghost use Rattle.sp_system.specs.SystemView.{event_of, system_of};
ghost use Rattle.sp_system.specs.WayView.{way_of};
ghost use Rattle.sp_spec_system.specs.System.{chain_begun};
ghost use Rattle.sp_spec_know.specs.Know as spec;
ghost use Rattle.sp_spec_know.specs.SettleLearn.{settling};
ghost use Rattle.sp_moves.specs.View.{case_of};
ghost use Rattle.sp_moves_know.specs.KnowRules.{with_begun, output_form, output_cases, cases_for};

use sp_book::book::RuleBook;
use sp_book::form::{Form, RuleForms};
use sp_destruct::destruction::may_apply;
use sp_fact::fact::Fact;
use sp_fact::signature::{Signature, Symbol};
use sp_learnings::learning::{add_learning, after, learn_by};
use sp_learnings::settling::settling_at;
use sp_moves::moves::Case;
use sp_moves::named::named;
use sp_moves::renamed::renamed;
use sp_moves::with_step::with_step;
use sp_system::at_time::event_at;
use sp_system::event::{Event, What};
use sp_system::picked::only_term;
use sp_system::system::System;
use sp_system::way::{Chain, Way};
use sp_term::term::{Name, Sort, Term};
use std::alloc::{AllocError, Global};

/// Each of the messages is learnt anyhow, at a new event before the time.
///
/// # Errors
///
/// `AllocError` where memory is wanting, or no number is left.
pub fn with_learnings(
    alloc: Global,
    system: &mut System,
    time: u128,
    messages: &Vec<Term>,
) -> Result<(), AllocError>
    ensures { OnOk result (system_of system.new ≡ spec.with_learnings time (view_all messages.now.items) (system_of system.old)) }
{
    for message in messages {
        add_learning(alloc, system, message, time)?;
    }
    Ok(())
}

/// A copy of the system, in which what is learnt at the time is learnt in this way.
///
/// # Errors
///
/// `AllocError` where memory is wanting.
pub fn with_way(alloc: Global, system: &System, time: u128, way: &Way) -> Result<System, AllocError>
    ensures { IfOk result (λ s. system_of s ≡ spec.with_way (system_of system.now) time (way_of way.now)) }
{
    let mut made = system.clone()?;
    learn_by(alloc, &mut made, time, way)?;
    Ok(made)
}

/// What the event learns, if it learns it anyhow.
pub fn learnt_anyhow(event: &Event) -> Option<&Term>
    ensures { option_map (λ t. view t.now) result ≡ spec.learnt_anyhow (event_of event.now).happening }
{
    match event.what() {
        What::Learn(message, Way::Anyhow) => Some(message),
        _ => None,
    }
}

/// Whether any message may stand for it.
pub fn is_message_variable(message: &Term) -> bool
    ensures { result ≡ spec.is_message_variable (view message.now) }
{
    match message {
        Term::Var(x) => x.sort == Sort::Msg,
        _ => false,
    }
}

/// Whether it isn't asked how the message is learnt: any message may stand for it, or this is settled.
///
/// # Errors
///
/// `AllocError` where memory is wanting.
pub(crate) fn is_unasked(
    alloc: Global,
    symbols: &Vec<Symbol>,
    message: &Term,
) -> Result<bool, AllocError>
    ensures { IfOk result (λ b. b ≡ (spec.is_message_variable (view message.now)
        || not (is_none (settling (map symbol_of symbols.now.items) 0 (view message.now))))) }
{
    if is_message_variable(message) {
        return Ok(true);
    }
    let found = settling_at(alloc, symbols, 0, message)?;
    Ok(found.is_some())
}

// The system as the only case.
fn only_case(alloc: Global, name: &str, system: System) -> Result<Vec<Case>, AllocError>
    ensures { IfOk result (λ cs. map case_of cs.items ≡ record { name = name.now; system = system_of system } ∷ []) }
{
    let name = String::from_str(alloc, name)?;
    let mut made = Vec::with_capacity(alloc, 1)?;
    made.push(Case { name, system })?;
    Ok(made)
}

// Whether the symbol is public over so many arguments as there are terms.
fn is_public_over(symbols: &Vec<Symbol>, symbol: &Name, terms: &Vec<Term>) -> bool
    ensures { result ≡ is_public (map symbol_of symbols.now.items) (name_of symbol.now) (count (view_all terms.now.items)) }
{
    may_apply(symbols, symbol, terms.len())
}

// A public symbol is applied to terms that were learnt before.
fn made_of(
    alloc: Global,
    symbols: &Vec<Symbol>,
    system: &System,
    time: u128,
    symbol: &Name,
    terms: &Vec<Term>,
) -> Result<Vec<Case>, AllocError>
    ensures { IfOk result (λ cs. map case_of cs.items
        ≡ spec.made_case (map symbol_of symbols.now.items) (system_of system.now) time (app (name_of symbol.now) (view_all terms.now.items))) }
{
    if !is_public_over(symbols, symbol, terms) {
        return Ok(Vec::new(alloc));
    }
    let mut made = with_way(alloc, system, time, &Way::Constructed)?;
    with_learnings(alloc, &mut made, time, terms)?;
    let cases = only_case(alloc, "made", made)?;
    Ok(cases)
}

fn made_case(
    alloc: Global,
    symbols: &Vec<Symbol>,
    system: &System,
    time: u128,
    message: &Term,
) -> Result<Vec<Case>, AllocError>
    ensures { IfOk result (λ cs. map case_of cs.items
        ≡ spec.made_case (map symbol_of symbols.now.items) (system_of system.now) time (view message.now)) }
{
    match message {
        Term::App(symbol, terms, _) => made_of(alloc, symbols, system, time, symbol, terms),
        _ => Ok(Vec::new(alloc)),
    }
}

// A fresh variable is a name of the adversary's own.
fn own_case(
    alloc: Global,
    system: &System,
    time: u128,
    message: &Term,
) -> Result<Vec<Case>, AllocError>
    ensures { IfOk result (λ cs. map case_of cs.items ≡ spec.own_case (system_of system.now) time (view message.now)) }
{
    match message {
        Term::Var(x) if x.sort == Sort::Fresh => {
            let made = with_way(alloc, system, time, &Way::OwnName)?;
            only_case(alloc, "own", made)
        }
        _ => Ok(Vec::new(alloc)),
    }
}

// What the fact puts out.
fn put_out(fact: &Fact) -> Option<&Term>
    ensures { option_map (λ t. view t.now) result ≡ spec.put_out (fact_of fact.now) }
{
    if fact.symbol.text.as_str() == "Out" && !fact.persistent {
        only_term(&fact.args)
    } else {
        None
    }
}

// The way that begins with this message, put out at the place by the event at the time.
fn begun_by(alloc: Global, time: u128, place: usize, message: &Term) -> Result<Way, AllocError>
    ensures { IfOk result (λ w. way_of w ≡ chain_begun time place (view message.now ∷ [])) }
{
    let messages = vec![in alloc; message.clone()?]?;
    Ok(Way::ChainBegun(Chain {
        time,
        conclusion: place,
        messages,
    }))
}

// A copy of the system, in which a chain begins with this message, put out at the place by an event of the next number, before the time.
fn with_begun(
    alloc: Global,
    system: &System,
    time: u128,
    place: usize,
    message: &Term,
) -> Result<System, AllocError>
    ensures { IfOk result (λ s. system_of s ≡ with_begun (system_of system.now) time place (view message.now)) }
{
    let next = after(system.next)?;
    let way = begun_by(alloc, system.next, place, message)?;
    let mut begun = with_way(alloc, system, time, &way)?;
    begun.order.add(alloc, system.next, time)?;
    begun.next = next;
    Ok(begun)
}

// The system with a new step by a form of the rule of this name, where a chain begins with this message, which the conclusion at the place puts out.
fn with_output(
    alloc: Global,
    system: &System,
    time: u128,
    name: &Name,
    form: &Form,
    place: usize,
    message: &Term,
) -> Result<System, AllocError>
    ensures { IfOk result (λ s. system_of s
        ≡ spec.with_output (system_of system.now) time (name_of name.now) (form_of form.now) place (view message.now)) }
{
    let begun = with_begun(alloc, system, time, place, message)?;
    let made = with_step(alloc, &begun, system.next, name, form)?;
    Ok(made)
}

// The same, where the conclusion puts something out.
fn by_output(
    alloc: Global,
    system: &System,
    time: u128,
    name: &Name,
    form: &Form,
    place: usize,
    conclusion: &Fact,
) -> Result<Option<System>, AllocError>
    ensures { IfOk result (λ o. option_map system_of o
        ≡ option_map (spec.with_output (system_of system.now) time (name_of name.now) (form_of form.now) place) (spec.put_out (fact_of conclusion.now))) }
{
    let Some(message) = put_out(conclusion) else {
        return Ok(None);
    };
    let made = with_output(alloc, system, time, name, form, place, message)?;
    Ok(Some(made))
}

fn by_outputs(
    alloc: Global,
    system: &System,
    time: u128,
    name: &Name,
    form: &Form,
    conclusions: &Vec<Fact>,
) -> Result<Vec<System>, AllocError>
    ensures { IfOk result (λ ss. map system_of ss.items
        ≡ spec.by_outputs (system_of system.now) time (name_of name.now) (form_of form.now) 0 (map fact_of conclusions.now.items)) }
{
    let mut made = Vec::new(alloc);
    for (place, conclusion) in conclusions.iter().enumerate() {
        if let Some(system) = by_output(alloc, system, time, name, form, place, conclusion)? {
            made.push(system)?;
        }
    }
    Ok(made)
}

// By one form of the rule.
fn output_form(
    alloc: Global,
    system: &System,
    time: u128,
    name: &Name,
    form: &Form,
) -> Result<Vec<System>, AllocError>
    ensures { IfOk result (λ ss. map system_of ss.items ≡ output_form (name_of name.now) (form_of form.now) (system_of system.now) time) }
{
    let first = after(system.next)?;
    let facts = renamed(alloc, first, &form.facts)?;
    let systems = by_outputs(alloc, system, time, name, form, &facts.conclusions)?;
    Ok(systems)
}

// By each form of the rule, in their order.
fn output_forms(
    alloc: Global,
    system: &System,
    time: u128,
    rule: &RuleForms,
) -> Result<Vec<System>, AllocError>
    ensures { IfOk result (λ ss. map system_of ss.items
        ≡ spec.output_forms (name_of rule.now.name) (map form_of rule.now.forms.items) (system_of system.now) time) }
{
    let mut made = Vec::new(alloc);
    for form in &rule.forms {
        let mut systems = output_form(alloc, system, time, &rule.name, form)?;
        made.append(&mut systems)?;
    }
    Ok(made)
}

fn output_cases(
    alloc: Global,
    system: &System,
    time: u128,
    rule: &RuleForms,
) -> Result<Vec<Case>, AllocError>
    ensures { IfOk result (λ cs. map case_of cs.items ≡ output_cases (rule_forms_of rule.now) (system_of system.now) time) }
{
    let systems = output_forms(alloc, system, time, rule)?;
    let made = named(alloc, &rule.name, systems)?;
    Ok(made)
}

fn by_each_output(
    alloc: Global,
    rules: &RuleBook,
    system: &System,
    time: u128,
) -> Result<Vec<Case>, AllocError>
    ensures { IfOk result (λ cs. map case_of cs.items ≡ spec.by_each_output (book_of rules.now) (system_of system.now) time) }
{
    let mut made = Vec::new(alloc);
    for rule in &rules.rules {
        let mut cases = output_cases(alloc, system, time, rule)?;
        made.append(&mut cases)?;
    }
    Ok(made)
}

// The cases for the message: it is made, the adversary's own, or a chain begins with what some rule puts out.
fn cases_for(
    alloc: Global,
    symbols: &Vec<Symbol>,
    rules: &RuleBook,
    system: &System,
    time: u128,
    message: &Term,
) -> Result<Vec<Case>, AllocError>
    ensures { IfOk result (λ cs. map case_of cs.items
        ≡ cases_for (map symbol_of symbols.now.items) (book_of rules.now) (system_of system.now) time (view message.now)) }
{
    let mut cases = made_case(alloc, symbols, system, time, message)?;
    let mut own = own_case(alloc, system, time, message)?;
    let mut begun = by_each_output(alloc, rules, system, time)?;
    cases.append(&mut own)?;
    cases.append(&mut begun)?;
    Ok(cases)
}

/// The ways in which the message may be learnt that is learnt anyhow at the time, before they are simplified: it is constructed, or the adversary's
/// own, or a chain begins with what a conclusion of a form of a rule puts out; none where no message is learnt anyhow there, or it is a message
/// variable, or it is settled in which way it is learnt.
///
/// # Errors
///
/// `AllocError` where memory is wanting, or no number is left.
pub fn know_cases(
    alloc: Global,
    signature: &Signature,
    rules: &RuleBook,
    system: &System,
    time: u128,
) -> Result<Option<Vec<Case>>, AllocError>
    ensures { IfOk result (λ o. option_map (λ cs. map case_of cs.items) o
        ≡ spec.know_cases (record { signature = signature_of signature.now; forms = book_of rules.now }) (system_of system.now) time) }
{
    let Some(event) = event_at(time, &system.events) else {
        return Ok(None);
    };
    let Some(message) = learnt_anyhow(event) else {
        return Ok(None);
    };
    if is_unasked(alloc, &signature.symbols, message)? {
        return Ok(None);
    }
    let made = cases_for(alloc, &signature.symbols, rules, system, time, message)?;
    Ok(Some(made))
}
