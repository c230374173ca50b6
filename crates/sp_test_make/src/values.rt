// Terms, ground terms, facts, equations and signatures that are read from texts. A variable is numbered by its letter, and in a ground term
// `~n1` is a fresh name.

use crate::ground::{applied, public};
use crate::terms::{constant, over, variable};
use crate::texts::{facts_in, formula_in, tokens_in};
use sp_fact::ground_fact::{GroundAction, GroundFact};
use sp_fact::ground_term::GroundTerm;
use sp_fact::signature::{Equation, Signature, Symbol};
use sp_read_parts::terms::term;
use sp_read_parts::{Mark, ReadFormula, WrittenTerm, WrittenVariable};
use sp_term::term::{Name, Sort, Term};
use std::alloc::Global;
use std::test::Fail;

/// The letters of variables, each at its number.
const LETTERS: [&str; 8] = ["x", "y", "z", "w", "s", "t", "u", "v"];

fn number_of(letter: &str) -> Result<u128, Fail> {
    for (number, other) in LETTERS.iter().enumerate() {
        if *other == letter {
            return Ok(number as u128);
        }
    }
    Err("letter".into())
}

fn sort_of(mark: Mark) -> Sort {
    match mark {
        Mark::Fresh => Sort::Fresh,
        Mark::Public => Sort::Pub,
        Mark::Bare | Mark::Message | Mark::Time => Sort::Msg,
    }
}

fn variable_of(written: WrittenVariable) -> Result<Term, Fail> {
    let number = number_of(written.name)?;
    Ok(variable(sort_of(written.mark), number))
}

#[cycle(terms)]
fn term_of(alloc: Global, written: &WrittenTerm) -> Result<Term, Fail> {
    match written {
        Term::Var(found) => variable_of(*found),
        Term::Constant(name) => Ok(constant(alloc, name.text.as_str())?),
        Term::FreshName(number) => Ok(Term::FreshName(*number)),
        Term::App(symbol, parts, _) => {
            let terms = terms_of(alloc, parts)?;
            Ok(over(alloc, symbol.text.as_str(), terms)?)
        }
    }
}

#[cycle(terms)]
fn terms_of(alloc: Global, written: &Vec<WrittenTerm>) -> Result<Vec<Term>, Fail> {
    let mut made = Vec::new(alloc);
    for part in written {
        made.push(term_of(alloc, part)?)?;
    }
    Ok(made)
}

// ~n1, by the name of the variable that is read there
fn fresh_name(name: &str) -> Result<GroundTerm, Fail> {
    let digits = name.strip_prefix("n").ok_or("fresh name")?;
    Ok(Term::FreshName(digits.parse::<u128>()?))
}

#[cycle(grounds)]
fn ground_of(alloc: Global, written: &WrittenTerm) -> Result<GroundTerm, Fail> {
    match written {
        Term::Var(found) => fresh_name(found.name),
        Term::Constant(name) => Ok(public(alloc, name.text.as_str())?),
        Term::FreshName(number) => Ok(Term::FreshName(*number)),
        Term::App(symbol, parts, _) => {
            let terms = grounds_of(alloc, parts)?;
            Ok(applied(alloc, symbol.text.as_str(), terms)?)
        }
    }
}

#[cycle(grounds)]
fn grounds_of(alloc: Global, written: &Vec<WrittenTerm>) -> Result<Vec<GroundTerm>, Fail> {
    let mut made = Vec::new(alloc);
    for part in written {
        made.push(ground_of(alloc, part)?)?;
    }
    Ok(made)
}

/// The ground term of a text, as `f('a', <~n1, c()>)`.
pub fn ground_in(alloc: Global, text: &str) -> Result<GroundTerm, Fail> {
    let found = tokens_in(alloc, text.as_bytes())?;
    let (written, _) = term(alloc, 0, &found, 0)?.ok_or("term")?;
    ground_of(alloc, &written)
}

/// The ground terms of these texts.
pub fn grounds_in(alloc: Global, texts: &[&str]) -> Result<Vec<GroundTerm>, Fail> {
    let mut made = Vec::new(alloc);
    for text in texts {
        made.push(ground_in(alloc, text)?)?;
    }
    Ok(made)
}

/// The facts over ground terms of a text, as `Fr(~n1), !Key('a', ~n1)`.
pub fn ground_facts(alloc: Global, text: &str) -> Result<Vec<GroundFact>, Fail> {
    let closed = format!(in alloc; "{text}]")?;
    let mut made = Vec::new(alloc);
    for written in &facts_in(alloc, closed.as_bytes())? {
        let args = grounds_of(alloc, &written.args)?;
        made.push(GroundFact {
            symbol: written.symbol.clone()?,
            persistent: written.persistent,
            args,
        })?;
    }
    Ok(made)
}

/// The actions over ground terms of a text.
pub fn ground_actions(alloc: Global, text: &str) -> Result<Vec<GroundAction>, Fail> {
    let mut made = Vec::new(alloc);
    for fact in ground_facts(alloc, text)? {
        made.push(GroundAction {
            symbol: fact.symbol,
            args: fact.args,
        })?;
    }
    Ok(made)
}

/// The equation of a text.
pub fn equation_in(alloc: Global, text: &str) -> Result<Equation, Fail> {
    let closed = format!(in alloc; "{text}\"")?;
    let ReadFormula::Equals(left, right) = formula_in(alloc, closed.as_bytes())? else {
        return Err("equation".into());
    };
    let left = term_of(alloc, &left)?;
    let right = term_of(alloc, &right)?;
    Ok(Equation { left, right })
}

/// The equations of these texts.
pub fn equations_in(alloc: Global, texts: &[&str]) -> Result<Vec<Equation>, Fail> {
    let mut made = Vec::new(alloc);
    for text in texts {
        made.push(equation_in(alloc, text)?)?;
    }
    Ok(made)
}

/// The symbols of pairs, and behind them these: of each its name, its arity and whether it is private.
pub fn symbols_with(alloc: Global, symbols: &[(&str, usize, bool)]) -> Result<Vec<Symbol>, Fail> {
    let mut made = Signature::pairs(alloc)?.symbols;
    for (text, arity, private) in symbols {
        let name = Name::new(alloc, text)?;
        made.push(Symbol {
            name,
            arity: *arity,
            private: *private,
        })?;
    }
    Ok(made)
}
