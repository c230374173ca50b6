// Terms, facts, rules and events as plain data, which tables can hold, and what is made of them.

use crate::facts::{action, linear, persistent, rule};
use crate::systems::{event, taking_fresh};
use crate::terms::{constant, over, variable};
use sp_fact::fact::{Action, Fact, Facts};
use sp_fact::rule::Rule;
use sp_system::event::Event;
use sp_system::way::{Chain, Way};
use sp_term::term::{Sort, Term};
use std::alloc::{AllocError, Global};

/// A term of a rule or of a system.
#[derive(Clone, Copy)]
pub enum PlainTerm<'a> {
    /// the variable of this sort and number
    Variable(Sort, u128),
    /// the public name of this text
    Public(&'a str),
    /// the fresh name of this number
    FreshName(u128),
    /// the symbol over these terms
    Over(&'a str, &'a [PlainTerm<'a>]),
}

/// The term.
#[cycle(plain_terms)]
pub fn term_of(alloc: Global, plain: &PlainTerm) -> Result<Term, AllocError> {
    match plain {
        PlainTerm::Variable(sort, number) => Ok(variable(*sort, *number)),
        PlainTerm::Public(text) => constant(alloc, text),
        PlainTerm::FreshName(number) => Ok(Term::FreshName(*number)),
        PlainTerm::Over(symbol, parts) => over(alloc, symbol, terms_of(alloc, *parts)?),
    }
}

/// The terms.
#[cycle(plain_terms)]
pub fn terms_of(alloc: Global, plain: &[PlainTerm]) -> Result<Vec<Term>, AllocError> {
    let mut made = Vec::new(alloc);
    for part in plain {
        made.push(term_of(alloc, part)?)?;
    }
    Ok(made)
}

/// A state fact: its symbol and its arguments.
#[derive(Clone, Copy)]
pub enum PlainFact<'a> {
    /// a linear one
    Linear(&'a str, &'a [PlainTerm<'a>]),
    /// a persistent one
    Persistent(&'a str, &'a [PlainTerm<'a>]),
}

/// The facts of a step; an action is a symbol and its arguments.
#[derive(Clone, Copy)]
pub struct PlainFacts<'a> {
    /// what is taken
    pub premises: &'a [PlainFact<'a>],
    /// what the trace shows
    pub actions: &'a [(&'a str, &'a [PlainTerm<'a>])],
    /// what is added
    pub conclusions: &'a [PlainFact<'a>],
}

/// The facts of a step that takes, shows and gives nothing.
pub const NO_FACTS: PlainFacts<'static> = PlainFacts {
    premises: &[],
    actions: &[],
    conclusions: &[],
};

fn fact_of(alloc: Global, plain: &PlainFact) -> Result<Fact, AllocError> {
    match plain {
        PlainFact::Linear(symbol, args) => linear(alloc, symbol, terms_of(alloc, *args)?),
        PlainFact::Persistent(symbol, args) => persistent(alloc, symbol, terms_of(alloc, *args)?),
    }
}

fn all_facts_of(alloc: Global, plain: &[PlainFact]) -> Result<Vec<Fact>, AllocError> {
    let mut made = Vec::new(alloc);
    for fact in plain {
        made.push(fact_of(alloc, fact)?)?;
    }
    Ok(made)
}

/// The actions.
pub fn actions_of(
    alloc: Global,
    plain: &[(&str, &[PlainTerm])],
) -> Result<Vec<Action>, AllocError> {
    let mut made = Vec::new(alloc);
    for (symbol, args) in plain {
        made.push(action(alloc, symbol, terms_of(alloc, *args)?)?)?;
    }
    Ok(made)
}

/// The facts of the step.
pub fn facts_of(alloc: Global, plain: &PlainFacts) -> Result<Facts, AllocError> {
    let premises = all_facts_of(alloc, plain.premises)?;
    let actions = actions_of(alloc, plain.actions)?;
    let conclusions = all_facts_of(alloc, plain.conclusions)?;
    Ok(Facts {
        premises,
        actions,
        conclusions,
    })
}

/// A rule: its name, its variables by their names and sorts, and its facts.
#[derive(Clone, Copy)]
pub struct PlainRule<'a> {
    /// its name
    pub name: &'a str,
    /// its variables, of which the first has the number 0
    pub variables: &'a [(&'a str, Sort)],
    /// what it takes, shows and adds
    pub facts: PlainFacts<'a>,
}

/// The rules.
pub fn rules_of(alloc: Global, plain: &[PlainRule]) -> Result<Vec<Rule>, AllocError> {
    let mut made = Vec::new(alloc);
    for given in plain {
        let facts = facts_of(alloc, &given.facts)?;
        made.push(rule(alloc, given.name, given.variables, facts)?)?;
    }
    Ok(made)
}

/// How a message is learnt; a chain is one of the first conclusion of the event at the time.
#[derive(Clone, Copy)]
pub enum PlainWay<'a> {
    /// this isn't settled
    Anyhow,
    /// as a public name
    PublicName,
    /// as a fresh name of the adversary's own
    OwnName,
    /// by applying a symbol
    Constructed,
    /// by a chain that begins with these messages
    ChainBegun(u128, &'a [PlainTerm<'a>]),
    /// by a chain that has no more than these messages
    ChainDone(u128, &'a [PlainTerm<'a>]),
}

fn chain_of(alloc: Global, time: u128, messages: &[PlainTerm]) -> Result<Chain, AllocError> {
    Ok(Chain {
        time,
        conclusion: 0,
        messages: terms_of(alloc, messages)?,
    })
}

/// The way.
pub fn way_of(alloc: Global, plain: &PlainWay) -> Result<Way, AllocError> {
    match plain {
        PlainWay::Anyhow => Ok(Way::Anyhow),
        PlainWay::PublicName => Ok(Way::PublicName),
        PlainWay::OwnName => Ok(Way::OwnName),
        PlainWay::Constructed => Ok(Way::Constructed),
        PlainWay::ChainBegun(time, messages) => {
            Ok(Way::ChainBegun(chain_of(alloc, *time, *messages)?))
        }
        PlainWay::ChainDone(time, messages) => {
            Ok(Way::ChainDone(chain_of(alloc, *time, *messages)?))
        }
    }
}

/// What happens at a time.
#[derive(Clone, Copy)]
pub enum PlainEvent<'a> {
    /// a step of the rule with these facts
    Step(u128, &'a str, PlainFacts<'a>),
    /// a step of the rule that takes the fresh names of these numbers, and no more
    Takes(u128, &'a str, &'a [u128]),
    /// the adversary sends the message
    Send(u128, PlainTerm<'a>),
    /// the adversary learns the message in this way
    Learn(u128, PlainTerm<'a>, PlainWay<'a>),
}

// the adversary learns the message in the way
fn learnt(
    alloc: Global,
    time: u128,
    message: &PlainTerm,
    way: &PlainWay,
) -> Result<Event, AllocError> {
    let way = way_of(alloc, way)?;
    let message = term_of(alloc, message)?;
    Event::learn(alloc, time, message, way)
}

/// The event.
pub fn event_of(alloc: Global, plain: &PlainEvent) -> Result<Event, AllocError> {
    match plain {
        PlainEvent::Step(time, rule, facts) => event(alloc, *time, rule, facts_of(alloc, facts)?),
        PlainEvent::Takes(time, rule, numbers) => taking_fresh(alloc, *time, rule, *numbers),
        PlainEvent::Send(time, message) => Event::send(alloc, *time, term_of(alloc, message)?),
        PlainEvent::Learn(time, message, way) => learnt(alloc, *time, message, way),
    }
}

/// The events.
pub fn events_of(alloc: Global, plain: &[PlainEvent]) -> Result<Vec<Event>, AllocError> {
    let mut made = Vec::new(alloc);
    for event in plain {
        made.push(event_of(alloc, event)?)?;
    }
    Ok(made)
}
