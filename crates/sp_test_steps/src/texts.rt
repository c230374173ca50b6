// Systems as texts, and systems that are the same.

use sp_formula::same::same_formula;
use sp_formula::shared::SharedFormula;
use sp_system::event::{Event, What};
use sp_system::system::System;
use sp_system::way::{Chain, Way};
use sp_term::term::{Sort, Term, Variable};
use std::alloc::{AllocError, Global};

fn put_variable(alloc: Global, text: &mut String, variable: Variable) -> Result<(), AllocError> {
    let mark = match variable.sort {
        Sort::Msg => "x",
        Sort::Fresh => "~",
        Sort::Pub => "$",
    };
    let number = variable.number;
    let words = format!(in alloc; "{mark}{number}")?;
    text.push_str(&words)
}

// x1, ~2 or $3; 'c'; or a symbol over terms in brackets
#[cycle(put)]
fn put_term(alloc: Global, text: &mut String, term: &Term) -> Result<(), AllocError> {
    match term {
        Term::Var(variable) => put_variable(alloc, text, *variable),
        Term::Constant(name) => {
            text.push_str("'")?;
            text.push_str(name.text.as_str())?;
            text.push_str("'")
        }
        Term::FreshName(_) => text.push_str("?"),
        Term::App(symbol, terms, _) => {
            text.push_str(symbol.text.as_str())?;
            put_terms(alloc, text, terms)
        }
    }
}

#[cycle(put)]
fn put_terms(alloc: Global, text: &mut String, terms: &Vec<Term>) -> Result<(), AllocError> {
    text.push_str("(")?;
    for term in terms {
        text.push_str(" ")?;
        put_term(alloc, text, term)?;
    }
    text.push_str(" )")
}

// the step and the place of its conclusion, and the messages
fn put_chain(
    alloc: Global,
    text: &mut String,
    word: &str,
    chain: &Chain,
) -> Result<(), AllocError> {
    let time = chain.time;
    let conclusion = chain.conclusion;
    let words = format!(in alloc; "{word} {time}.{conclusion} ")?;
    text.push_str(&words)?;
    put_terms(alloc, text, &chain.messages)
}

fn put_way(alloc: Global, text: &mut String, way: &Way) -> Result<(), AllocError> {
    match way {
        Way::Anyhow => text.push_str("anyhow"),
        Way::PublicName => text.push_str("public"),
        Way::OwnName => text.push_str("own"),
        Way::Constructed => text.push_str("made"),
        Way::ChainBegun(chain) => put_chain(alloc, text, "chain", chain),
        Way::ChainDone(chain) => put_chain(alloc, text, "done", chain),
    }
}

// the rule of the event, or what is sent or learnt
fn put_event(alloc: Global, text: &mut String, event: &Event) -> Result<(), AllocError> {
    let time = event.time;
    let words = format!(in alloc; "{time} ")?;
    text.push_str(&words)?;
    match event.what() {
        What::Rule(rule) => text.push_str(rule.text.as_str())?,
        What::Send(message) => {
            text.push_str("send ")?;
            put_term(alloc, text, message)?;
        }
        What::Learn(message, way) => {
            text.push_str("learn ")?;
            put_term(alloc, text, message)?;
            text.push_str(" ")?;
            put_way(alloc, text, way)?;
        }
    }
    text.push_str("; ")
}

/// Puts the events, the pairs of the order, and the next number behind the text.
pub fn put_system(alloc: Global, text: &mut String, system: &System) -> Result<(), AllocError> {
    for event in system.events.iter() {
        put_event(alloc, text, event)?;
    }
    put_order(alloc, text, system.order.pairs())?;
    let next = system.next;
    let words = format!(in alloc; "next {next}")?;
    text.push_str(&words)
}

/// The events, the pairs of the order, and the next number.
pub fn text_of(alloc: Global, system: &System) -> Result<String, AllocError> {
    let mut text = String::new(alloc);
    put_system(alloc, &mut text, system)?;
    Ok(text)
}

fn put_order(alloc: Global, text: &mut String, order: &[(u128, u128)]) -> Result<(), AllocError> {
    for (first, second) in order {
        let words = format!(in alloc; "{first}<{second} ")?;
        text.push_str(&words)?;
    }
    Ok(())
}

fn same_formulas(left: &Vec<SharedFormula>, right: &Vec<SharedFormula>) -> bool {
    if left.len() != right.len() {
        return false;
    }
    for (formula, other) in left.iter().zip(right) {
        if !same_formula(formula, other) {
            return false;
        }
    }
    true
}

fn same_ends(left: &System, right: &System) -> bool {
    left.last == right.last && left.closed == right.closed && *left.links == *right.links
}

/// Whether the systems are the same, but for facts of steps and unequal pairs.
pub fn same_system(alloc: Global, left: &System, right: &System) -> Result<bool, AllocError> {
    let text = text_of(alloc, left)?;
    let other = text_of(alloc, right)?;
    Ok(
        text == other
            && same_ends(left, right)
            && same_formulas(&left.formulas, &right.formulas)
            && same_formulas(&left.spent, &right.spent),
    )
}
