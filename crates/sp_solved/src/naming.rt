// Values for the variables that are left in a list of events.

ghost use Rattle.std.specs.Prelude.{◌≡◌, ◌+◌, [], ◌∷◌, ◌++◌, IfOk, OnOk, map, length, string_bytes, if◌then◌else◌};
ghost use Rattle.sp_spec.specs.Written as written;
ghost use Rattle.sp_law_equal.specs.Matching.{value_in};
ghost use Rattle.sp_term.specs.View.{name_of, variable_of, view, view_all};
ghost use Rattle.sp_fact.specs.View.{action_of, fact_of, facts_of};
ghost use Rattle.sp_spec_system.specs.System as system_spec;
ghost use Rattle.sp_norm.specs.Bounds.{bounds};
ghost use Rattle.sp_system.specs.SystemView.{event_of};
ghost use Rattle.sp_system.specs.WayView.{way_of};
ghost use Rattle.sp_solved.specs.ListingView.{events_of};
ghost use Rattle.sp_spec_solved.specs.Naming as spec;
ghost use Rattle.sp_spec_solved.specs.Naming.{once_after};

use sp_fact::fact::{Action, Fact, Facts};
use sp_system::event::{Event, What};
use sp_system::way::Way;
use sp_term::subst::Values;
use sp_term::term::{Name, Sort, Term, Variable};
use std::alloc::{AllocError, Global};

/// Whether the variable is one of these.
fn is_seen(variable: Variable, seen: &Vec<Variable>) -> bool
    ensures { result ≡ spec.is_seen (variable_of variable) (map variable_of seen.now.items) }
{
    for other in seen {
        if *other == variable {
            return true;
        }
    }
    false
}

/// Puts the variable at the end, unless it is there.
fn see(seen: &mut Vec<Variable>, variable: Variable) -> Result<(), AllocError>
    ensures { OnOk result (map variable_of seen.new.items ≡ once_after (map variable_of seen.old.items) (variable_of variable ∷ [])) }
{
    if is_seen(variable, seen) {
        return Ok(());
    }
    seen.push(variable)?;
    Ok(())
}

/// Puts the variables of a term at the end, each unless it is there.
#[cycle(seeing)]
fn see_term(term: &Term, seen: &mut Vec<Variable>) -> Result<(), AllocError>
    ensures { OnOk result (map variable_of seen.new.items ≡ once_after (map variable_of seen.old.items) (spec.in_term (view term.now))) }
{
    match term {
        Term::Var(variable) => see(seen, *variable),
        Term::Constant(_) | Term::FreshName(_) => Ok(()),
        Term::App(_, terms, _) => see_terms(terms, seen),
    }
}

/// Puts the variables of terms at the end, each unless it is there.
#[cycle(seeing)]
fn see_terms(terms: &Vec<Term>, seen: &mut Vec<Variable>) -> Result<(), AllocError>
    ensures { OnOk result (map variable_of seen.new.items ≡ once_after (map variable_of seen.old.items) (spec.in_terms (view_all terms.now.items))) }
{
    for term in terms {
        see_term(term, seen)?;
    }
    Ok(())
}

/// Puts the variables of facts at the end, each unless it is there.
fn see_facts(facts: &Vec<Fact>, seen: &mut Vec<Variable>) -> Result<(), AllocError>
    ensures { OnOk result (map variable_of seen.new.items ≡ once_after (map variable_of seen.old.items) (spec.in_facts (map fact_of facts.now.items))) }
{
    for fact in facts {
        see_terms(&fact.args, seen)?;
    }
    Ok(())
}

/// Puts the variables of actions at the end, each unless it is there.
fn see_actions(actions: &Vec<Action>, seen: &mut Vec<Variable>) -> Result<(), AllocError>
    ensures { OnOk result (map variable_of seen.new.items ≡ once_after (map variable_of seen.old.items) (spec.in_actions (map action_of actions.now.items))) }
{
    for action in actions {
        see_terms(&action.args, seen)?;
    }
    Ok(())
}

/// Puts the variables of the facts of a step at the end, each unless it is there.
#[tactic(auto, using(crate::proofs::Stepping::seen_three))]
fn see_step(facts: &Facts, seen: &mut Vec<Variable>) -> Result<(), AllocError>
    ensures { OnOk result (map variable_of seen.new.items ≡ once_after (map variable_of seen.old.items) (spec.occurrences (facts_of facts.now))) }
{
    see_facts(&facts.premises, seen)?;
    see_actions(&facts.actions, seen)?;
    see_facts(&facts.conclusions, seen)?;
    Ok(())
}

/// Puts the variables of the messages of a chain at the end, each unless it is there.
#[tactic(auto, using(crate::proofs::Stepping::of_messages))]
fn see_chain(messages: &Vec<Term>, seen: &mut Vec<Variable>) -> Result<(), AllocError>
    ensures { OnOk result (map variable_of seen.new.items ≡ once_after (map variable_of seen.old.items) (spec.in_chain (map view messages.now.items))) }
{
    see_terms(messages, seen)?;
    Ok(())
}

/// Puts the variables of a way of learning at the end, each unless it is there.
fn see_way(way: &Way, seen: &mut Vec<Variable>) -> Result<(), AllocError>
    ensures { OnOk result (map variable_of seen.new.items ≡ once_after (map variable_of seen.old.items) (spec.in_way (way_of way.now))) }
{
    match way {
        Way::Anyhow | Way::PublicName | Way::OwnName | Way::Constructed => Ok(()),
        Way::ChainBegun(chain) => see_chain(&chain.messages, seen),
        Way::ChainDone(chain) => see_chain(&chain.messages, seen),
    }
}

/// Puts the variables of what is learnt, and how, at the end, each unless it is there.
#[tactic(auto, using(crate::proofs::Stepping::seen_both))]
fn see_learnt(message: &Term, way: &Way, seen: &mut Vec<Variable>) -> Result<(), AllocError>
    ensures { OnOk result (map variable_of seen.new.items
        ≡ once_after (map variable_of seen.old.items) (spec.in_step (system_spec.learning (view message.now) (way_of way.now)))) }
{
    see_term(message, seen)?;
    see_way(way, seen)?;
    Ok(())
}

/// Puts the variables of an event at the end, each unless it is there.
fn see_event(event: &Event, seen: &mut Vec<Variable>) -> Result<(), AllocError>
    ensures { OnOk result (map variable_of seen.new.items ≡ once_after (map variable_of seen.old.items) (spec.in_step (event_of event.now).happening)) }
{
    match event.what() {
        What::Rule(_) => see_step(event.facts(), seen),
        What::Send(message) => see_term(message, seen),
        What::Learn(message, way) => see_learnt(message, way, seen),
    }
}

/// The variables of the events, each once, in the order in which they first stand.
fn variables(alloc: Global, events: &Vec<&Event>) -> Result<Vec<Variable>, AllocError>
    ensures { IfOk result (λ xs. map variable_of xs.items ≡ spec.variables_of (events_of events.now.items)) }
{
    let mut seen = Vec::new(alloc);
    for event in events {
        see_event(event, &mut seen)?;
    }
    Ok(seen)
}

/// The fresh ones among the variables.
fn fresh_among(alloc: Global, variables: &Vec<Variable>) -> Result<Vec<Variable>, AllocError>
    ensures { IfOk result (λ xs. map variable_of xs.items ≡ spec.fresh_among (map variable_of variables.now.items)) }
{
    let mut found = Vec::new(alloc);
    for variable in variables {
        if variable.sort == Sort::Fresh {
            found.push(*variable)?;
        }
    }
    Ok(found)
}

/// Those among the variables that aren't fresh.
fn others_among(alloc: Global, variables: &Vec<Variable>) -> Result<Vec<Variable>, AllocError>
    ensures { IfOk result (λ xs. map variable_of xs.items ≡ spec.others_among (map variable_of variables.now.items)) }
{
    let mut found = Vec::new(alloc);
    for variable in variables {
        if variable.sort != Sort::Fresh {
            found.push(*variable)?;
        }
    }
    Ok(found)
}

/// Gives the variables fresh names, one after the other.
fn give_fresh(variables: &Vec<Variable>, values: &mut Values) -> Result<(), AllocError>
    ensures { OnOk result (bounds values.new ≡ bounds values.old ++ spec.fresh_given 1 (map variable_of variables.now.items)) }
{
    for (place, variable) in variables.iter().enumerate() {
        let number = place as u128 + 1;
        values.push(*variable, Term::FreshName(number))?;
    }
    Ok(())
}

/// Whether the name is one of these.
fn is_listed(name: &Name, names: &Vec<Name>) -> bool
    ensures { result ≡ written.is_listed (name_of name.now) (map name_of names.now.items) }
{
    for other in names {
        if *other == *name {
            return true;
        }
    }
    false
}

/// The public name of a number.
fn public_name(alloc: Global, number: usize) -> Result<Name, AllocError>
    ensures { IfOk result (λ n. name_of n ≡ spec.public_name number) }
{
    let text = format!(in alloc; "a{number}")?;
    let name = Name::new(alloc, &text)?;
    Ok(name)
}

/// Gives the variables public names, one after the other, passing over the constants.
///
/// # Errors
///
/// `AllocError` where memory is wanting, or the names run out, of which there are more than constants.
fn give_public(
    alloc: Global,
    constants: &Vec<Name>,
    variables: &Vec<Variable>,
    values: &mut Values,
) -> Result<(), AllocError>
    ensures { OnOk result (bounds values.new ≡ bounds values.old ++ spec.public_given (map name_of constants.now.items) (length variables.now.items + length constants.now.items) 1 (map variable_of variables.now.items)) }
{
    let mut given = 0;
    for passed in 0..variables.len() + constants.len() {
        if given == variables.len() {
            return Ok(());
        }
        let name = public_name(alloc, passed + 1)?;
        if !is_listed(&name, constants) {
            values.push(variables[given], Term::Constant(name))?;
            given += 1;
        }
    }
    if given < variables.len() {
        return Err(AllocError);
    }
    Ok(())
}

/// Values for the variables of the events.
///
/// # Errors
///
/// `AllocError` where memory is wanting.
pub fn named(
    alloc: Global,
    constants: &Vec<Name>,
    events: &Vec<&Event>,
) -> Result<Values, AllocError>
    ensures { IfOk result (λ vs. value_in (bounds vs) ≡ spec.values_of (map name_of constants.now.items) (events_of events.now.items)) }
{
    let variables = variables(alloc, events)?;
    let fresh = fresh_among(alloc, &variables)?;
    let others = others_among(alloc, &variables)?;
    let mut values = Values::new(alloc);
    give_fresh(&fresh, &mut values)?;
    give_public(alloc, constants, &others, &mut values)?;
    Ok(values)
}
