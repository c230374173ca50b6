// What the adversary learns from what it gets: the entries that a log goes on by, the oldest first.

ghost use Rattle.std.specs.Prelude.{◌≡◌, ◌∷◌, ◌&&◌, ◌==◌, IfOk, OnOk, codes, map, option_map};
ghost use Rattle.std.specs.Str.{bytes_eq};
ghost use Rattle.sp_law_adversary.specs.Learning as spec;
ghost use Rattle.sp_term.specs.View.{name_of};
ghost use Rattle.sp_fact.specs.GroundView.{ground_of, grounds_of, symbol_of};
ghost use Rattle.sp_norm.specs.Over.{any_public};
ghost use Rattle.sp_learn.specs.View.{entry_of, how_of};
ghost use Rattle.sp_transfer.specs.Absorbing.{absorbed_parts};
ghost use Rattle.sp_transfer.specs.View.{chain_of, log_in};

use sp_fact::ground_term::GroundTerm;
use sp_fact::signature::Symbol;
use sp_learn::log::{Entry, How};
use sp_norm::over::has_public;
use sp_term::term::{Name, Term, copied, same};
use std::alloc::{AllocError, Global};

/// A chain so far, from what a step puts out.
#[derive(Drop)]
pub struct Chain {
    /// the step's position, counted from 0, the oldest first
    pub position: usize,
    /// the place of its conclusion, counted from 0
    pub place: usize,
    /// from the argument of that conclusion down
    pub messages: Vec<GroundTerm>,
}

impl Chain {
    /// The chain with one more message.
    pub fn with_message(&self, message: &GroundTerm) -> Result<Chain, AllocError>
        ensures { IfOk result (λ c. chain_of c ≡ spec.with_message (chain_of self.now) (ground_of message.now)) }
    {
        let mut messages = copied(&self.messages)?;
        messages.push(message.clone()?)?;
        Ok(Chain {
            position: self.position,
            place: self.place,
            messages,
        })
    }

    /// How its last message is learnt by it.
    pub fn way(&self) -> Result<How, AllocError>
        ensures { IfOk result (λ h. how_of h ≡ spec.by (chain_of self.now)) }
    {
        let messages = copied(&self.messages)?;
        Ok(How::Chain {
            step: self.position,
            conclusion: self.place,
            messages,
        })
    }
}

/// How the message was learnt, if it was.
pub fn way_learnt<'a>(entries: &'a Vec<Entry>, message: &GroundTerm) -> Option<&'a How>
    ensures { option_map (λ h. how_of h.now) result ≡ spec.way_learnt (log_in entries.now.items) (ground_of message.now) }
{
    for place in (0..entries.len()).rev() {
        if let Entry::Learn(learnt, how) = &entries[place] {
            if same(learnt, message) {
                return Some(how);
            }
        }
    }
    None
}

/// Whether the message was learnt.
pub fn is_learnt(entries: &Vec<Entry>, message: &GroundTerm) -> bool
    ensures { result ≡ spec.is_learnt (log_in entries.now.items) (ground_of message.now) }
{
    way_learnt(entries, message).is_some()
}

/// Adds an entry to the log.
pub fn add_entry(entries: &mut Vec<Entry>, entry: Entry) -> Result<(), AllocError>
    ensures { OnOk result (log_in entries.new.items ≡ entry_of entry ∷ log_in entries.old.items) }
{
    entries.push(entry)?;
    Ok(())
}

/// The message is learnt in that way, if it wasn't.
pub fn learn(entries: &mut Vec<Entry>, message: &GroundTerm, how: How) -> Result<(), AllocError>
    ensures { OnOk result (log_in entries.new.items ≡ spec.learnt_by (log_in entries.old.items) (ground_of message.now) (how_of how)) }
{
    if is_learnt(entries, message) {
        return Ok(());
    }
    add_entry(entries, Entry::Learn(message.clone()?, how))
}

// Whether the symbol over so many arguments is a pair.
fn is_pair(symbol: &Name, count: usize) -> bool
    ensures { result ≡ (bytes_eq (name_of symbol.now) (codes "pair") && (count == 2)) }
{
    symbol.text.as_str() == "pair" && count == 2
}

// Whether the symbol over so many arguments can be made out of nothing.
fn stands_alone(symbols: &Vec<Symbol>, symbol: &Name, count: usize) -> bool
    ensures { result ≡ ((count == 0) && any_public (map symbol_of symbols.now.items) (name_of symbol.now) 0) }
{
    count == 0 && has_public(symbols, symbol, 0)
}

// How the end of the chain is learnt that is no pair.
fn way_at_end(
    alloc: Global,
    symbols: &Vec<Symbol>,
    chain: &Chain,
    message: &GroundTerm,
) -> Result<How, AllocError>
    ensures { IfOk result (λ h. how_of h ≡ spec.way_at_end (map symbol_of symbols.now.items) (chain_of chain.now) (ground_of message.now)) }
{
    match message {
        Term::Constant(_) => Ok(How::PublicName),
        Term::App(symbol, terms, _) => {
            if stands_alone(symbols, symbol, terms.len()) {
                return Ok(How::Constructed);
            }
            chain.way()
        }
        _ => chain.way(),
    }
}

// The end of the chain is learnt, which is no pair.
fn absorb_end(
    alloc: Global,
    symbols: &Vec<Symbol>,
    chain: &Chain,
    message: &GroundTerm,
    entries: &mut Vec<Entry>,
) -> Result<(), AllocError>
    ensures { OnOk result (log_in entries.new.items ≡ spec.learnt_by (log_in entries.old.items) (ground_of message.now)
        (spec.way_at_end (map symbol_of symbols.now.items) (chain_of chain.now) (ground_of message.now))) }
{
    let how = way_at_end(alloc, symbols, chain, message)?;
    learn(entries, message, how)
}

/// The end of the chain is learnt, a pair by its parts.
#[cycle(absorb)]
pub fn absorb(
    alloc: Global,
    symbols: &Vec<Symbol>,
    chain: &Chain,
    end: &GroundTerm,
    entries: &mut Vec<Entry>,
) -> Result<(), AllocError>
    ensures { OnOk result (log_in entries.new.items ≡ spec.absorbed (map symbol_of symbols.now.items) (chain_of chain.now) (ground_of end.now) (log_in entries.old.items)) }
{
    match end {
        Term::App(symbol, terms, _) => {
            if !is_pair(symbol, terms.len()) {
                return absorb_end(alloc, symbols, chain, end, entries);
            }
            if is_learnt(entries, end) {
                return Ok(());
            }
            absorb_parts(alloc, symbols, chain, terms, entries)?;
            learn(entries, end, How::Constructed)
        }
        _ => absorb_end(alloc, symbols, chain, end, entries),
    }
}

// The parts at the end of the chain are learnt, one after the other.
#[cycle(absorb)]
fn absorb_parts(
    alloc: Global,
    symbols: &Vec<Symbol>,
    chain: &Chain,
    parts: &Vec<GroundTerm>,
    entries: &mut Vec<Entry>,
) -> Result<(), AllocError>
    ensures { OnOk result (log_in entries.new.items ≡ absorbed_parts (map symbol_of symbols.now.items) (chain_of chain.now) (grounds_of parts.now.items) (log_in entries.old.items)) }
{
    for part in parts {
        let longer = chain.with_message(part)?;
        absorb(alloc, symbols, &longer, part, entries)?;
    }
    Ok(())
}
