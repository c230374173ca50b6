// What the adversary may learn: whether a message may be made, or follows by a chain.

ghost use Rattle.std.specs.Prelude.{◌≡◌, ◌&&◌, ◌||◌, ◌==◌, IfOk, codes, map, take};
ghost use Rattle.std.specs.Str.{bytes_eq};
ghost use Rattle.sp_spec.specs.Same.{same_term};
ghost use Rattle.sp_spec.specs.Term.{count};
ghost use Rattle.sp_law_equal.specs.Normal.{normal};
ghost use Rattle.sp_term.specs.View.{name_of};
ghost use Rattle.sp_fact.specs.GroundView.{equation_of, ground_of, grounds_of, signature_of, symbol_of};
ghost use Rattle.sp_norm.specs.Over.{any_public};
ghost use Rattle.sp_destruct.specs.View.{destruction_of};
ghost use Rattle.sp_destruct.specs.Links.{is_link};
ghost use Rattle.sp_learn.specs.Learning as spec;
ghost use Rattle.sp_learn.specs.View.{entry_of};

use crate::log::{Entry, learnt_in};
use crate::sources::puts_out;
use sp_destruct::destruction::Destruction;
use sp_destruct::search::link;
use sp_fact::ground_term::GroundTerm;
use sp_fact::signature::{Equation, Signature, Symbol};
use sp_log::names::is_one_of;
use sp_norm::normal::normal;
use sp_norm::over::has_public;
use sp_term::term::{Name, Sort, Term, has_sort, same};
use std::alloc::{AllocError, Global};

// Whether each of the terms is one of the messages.
fn are_among(messages: &Vec<GroundTerm>, terms: &Vec<GroundTerm>) -> bool
    ensures { result ≡ spec.are_among (map ground_of messages.now.items) (grounds_of terms.now.items) }
{
    for term in terms {
        if !is_one_of(messages, term) {
            return false;
        }
    }
    true
}

// Whether the symbol is public, and its arguments are among the messages learnt.
fn may_apply(
    symbols: &Vec<Symbol>,
    learnt: &Vec<GroundTerm>,
    symbol: &Name,
    terms: &Vec<GroundTerm>,
) -> bool
    ensures { result ≡ (any_public (map symbol_of symbols.now.items) (name_of symbol.now) (count (grounds_of terms.now.items))
        && spec.are_among (map ground_of learnt.now.items) (grounds_of terms.now.items)) }
{
    has_public(symbols, symbol, terms.len()) && are_among(learnt, terms)
}

// Whether the message is its own normal form.
fn stays(alloc: Global, equations: &Vec<Equation>, message: &GroundTerm) -> Result<bool, AllocError>
    ensures { IfOk result (λ b. b ≡ same_term (normal (map equation_of equations.now.items) (ground_of message.now)) (ground_of message.now)) }
{
    let normal_form = normal(alloc, equations, message)?;
    Ok(same(&normal_form, message))
}

/// Whether the message is made by a public symbol out of messages that are learnt, and in normal form.
pub fn is_made(
    alloc: Global,
    signature: &Signature,
    learnt: &Vec<GroundTerm>,
    message: &GroundTerm,
) -> Result<bool, AllocError>
    ensures { IfOk result (λ b. b ≡ spec.is_made (signature_of signature.now) (map ground_of learnt.now.items) (ground_of message.now)) }
{
    match message {
        Term::App(symbol, terms, _) => {
            if !may_apply(&signature.symbols, learnt, symbol, terms) {
                return Ok(false);
            }
            stays(alloc, &signature.equations, message)
        }
        _ => Ok(false),
    }
}

// Whether the symbol over so many arguments is a pair, or stands alone and is public.
fn is_applied_alone(symbols: &Vec<Symbol>, symbol: &Name, count: usize) -> bool
    ensures { result ≡ ((bytes_eq (name_of symbol.now) (codes "pair") && (count == 2))
        || ((count == 0) && any_public (map symbol_of symbols.now.items) (name_of symbol.now) 0)) }
{
    (symbol.text.as_str() == "pair" && count == 2) || (count == 0 && has_public(symbols, symbol, 0))
}

/// Whether the message is a pair, a public symbol without arguments, or a public name.
pub fn is_made_alone(signature: &Signature, message: &GroundTerm) -> bool
    ensures { result ≡ spec.is_made_alone (signature_of signature.now) (ground_of message.now) }
{
    match message {
        Term::App(symbol, terms, _) => is_applied_alone(&signature.symbols, symbol, terms.len()),
        _ => has_sort(Sort::Pub, message),
    }
}

// Whether the second message follows from the first.
fn is_linked(
    alloc: Global,
    destructions: &Vec<Destruction>,
    learnt: &Vec<GroundTerm>,
    from: &GroundTerm,
    to: &GroundTerm,
) -> Result<bool, AllocError>
    ensures { IfOk result (λ b. b
        ≡ is_link (map destruction_of destructions.now.items) (map ground_of learnt.now.items) (ground_of from.now) (ground_of to.now)) }
{
    let found = link(alloc, destructions, learnt, from, to)?;
    Ok(found.is_some())
}

// Whether the messages lead from the first to the last.
fn lead(
    alloc: Global,
    destructions: &Vec<Destruction>,
    learnt: &Vec<GroundTerm>,
    first: &GroundTerm,
    messages: &[GroundTerm],
    last: &GroundTerm,
) -> Result<bool, AllocError>
    ensures { IfOk result (λ b. b ≡ spec.leads (is_link (map destruction_of destructions.now.items) (map ground_of learnt.now.items))
        (ground_of first.now) (map ground_of messages.now) (ground_of last.now)) }
{
    let mut from = first;
    for next in messages {
        if !is_linked(alloc, destructions, learnt, from, next)? {
            return Ok(false);
        }
        from = next;
    }
    Ok(same(from, last))
}

/// Whether the messages begin with what the step at the position puts out, as its conclusion of the place, and lead to the message.
pub fn is_chain(
    alloc: Global,
    destructions: &Vec<Destruction>,
    learnt: &Vec<GroundTerm>,
    earlier: &[Entry],
    conclusion: (usize, usize),
    messages: &Vec<GroundTerm>,
    message: &GroundTerm,
) -> Result<bool, AllocError>
    ensures { IfOk result (λ b. b ≡ spec.is_chain (is_link (map destruction_of destructions.now.items) (map ground_of learnt.now.items))
        (map entry_of earlier.now) conclusion.0 conclusion.1 (map ground_of messages.now.items) (ground_of message.now)) }
{
    match messages.split_first() {
        Some((first, rest)) => {
            if !puts_out(earlier, conclusion.0, conclusion.1, first) {
                return Ok(false);
            }
            lead(alloc, destructions, learnt, first, rest, message)
        }
        None => Ok(false),
    }
}

// Whether none of the messages is one of these.
fn none_among(messages: &Vec<GroundTerm>, chain: &Vec<GroundTerm>) -> bool
    ensures { result ≡ spec.none_among (map ground_of messages.now.items) (map ground_of chain.now.items) }
{
    for message in chain {
        if is_one_of(messages, message) {
            return false;
        }
    }
    true
}

/// Whether none of the messages was learnt before the entry at the position.
pub fn chain_is_new(
    alloc: Global,
    earlier: &[Entry],
    position: usize,
    messages: &Vec<GroundTerm>,
) -> Result<bool, AllocError>
    ensures { IfOk result (λ b. b ≡ spec.none_among (spec.learnt_in (take position (map entry_of earlier.now))) (map ground_of messages.now.items)) }
{
    let end = position.min(earlier.len());
    let learnt = learnt_in(alloc, &earlier[..end])?;
    Ok(none_among(&learnt, messages))
}
