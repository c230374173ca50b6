// In which way a message is learnt, where this is known of the message alone.

ghost use Rattle.std.specs.Prelude.{◌≡◌, [], IfOk, map, option_map};
ghost use Rattle.sp_spec.specs.Destruction.{is_public};
ghost use Rattle.sp_spec.specs.Term.{app};
ghost use Rattle.sp_term.specs.View.{name_of, view, view_all};
ghost use Rattle.sp_fact.specs.GroundView.{symbol_of};
ghost use Rattle.sp_spec_know.specs.SettleLearn as rows;
ghost use Rattle.sp_learnings.specs.SettlingView.{settling_of, publicly, made_of_both};

use sp_destruct::destruction::may_apply;
use sp_fact::signature::Symbol;
use sp_system::way::Way;
use sp_term::term::{Name, Sort, Term};
use std::alloc::{AllocError, Global};

/// In which way the message at a time is learnt.
#[derive(Drop)]
pub struct Settling {
    /// the time
    pub time: u128,
    /// the way
    pub way: Way,
    /// the parts that are learnt before
    pub parts: Vec<Term>,
}

// As a public name.
fn publicly(alloc: Global, time: u128) -> Settling
    ensures { settling_of result ≡ publicly time }
{
    Settling {
        time,
        way: Way::PublicName,
        parts: Vec::new(alloc),
    }
}

// By applying a public symbol without arguments.
fn made_of_none(alloc: Global, symbols: &Vec<Symbol>, time: u128, symbol: &Name) -> Option<Settling>
    ensures { option_map settling_of result ≡ rows.made_of (is_public (map symbol_of symbols.now.items) (name_of symbol.now) 0) time [] }
{
    if !may_apply(symbols, symbol, 0) {
        return None;
    }
    Some(Settling {
        time,
        way: Way::Constructed,
        parts: Vec::new(alloc),
    })
}

// By pairing.
fn made_of_both(
    alloc: Global,
    time: u128,
    symbol: &Name,
    left: &Term,
    right: &Term,
) -> Result<Option<Settling>, AllocError>
    ensures { IfOk result (λ o. option_map settling_of o ≡ made_of_both time (name_of symbol.now) (view left.now) (view right.now)) }
{
    if symbol.text.as_str() != "pair" {
        return Ok(None);
    }
    let mut parts = Vec::with_capacity(alloc, 2)?;
    parts.push(left.clone()?)?;
    parts.push(right.clone()?)?;
    Ok(Some(Settling {
        time,
        way: Way::Constructed,
        parts,
    }))
}

fn of_application(
    alloc: Global,
    symbols: &Vec<Symbol>,
    time: u128,
    symbol: &Name,
    terms: &Vec<Term>,
) -> Result<Option<Settling>, AllocError>
    ensures { IfOk result (λ o. option_map settling_of o
        ≡ rows.settling (map symbol_of symbols.now.items) time (app (name_of symbol.now) (view_all terms.now.items))) }
{
    if terms.is_empty() {
        return Ok(made_of_none(alloc, symbols, time, symbol));
    }
    if terms.len() == 2 {
        made_of_both(alloc, time, symbol, &terms[0], &terms[1])
    } else {
        Ok(None)
    }
}

/// In which way the message is learnt at the time, if it is known.
///
/// # Errors
///
/// `AllocError` where memory is wanting.
pub fn settling_at(
    alloc: Global,
    symbols: &Vec<Symbol>,
    time: u128,
    message: &Term,
) -> Result<Option<Settling>, AllocError>
    ensures { IfOk result (λ o. option_map settling_of o ≡ rows.settling (map symbol_of symbols.now.items) time (view message.now)) }
{
    match message {
        Term::Var(x) => {
            if x.sort == Sort::Pub {
                Ok(Some(publicly(alloc, time)))
            } else {
                Ok(None)
            }
        }
        Term::Constant(_) => Ok(Some(publicly(alloc, time))),
        Term::FreshName(_) => Ok(None),
        Term::App(symbol, terms, _) => of_application(alloc, symbols, time, symbol, terms),
    }
}
