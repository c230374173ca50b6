// What the links of chains go by: the destructions of a theory, and for each the way down to its pattern in the left side of an equation.

ghost use Rattle.std.specs.Prelude.{◌≡◌, ◌++◌, ◌+◌, ◌<◌, suc, [], IfOk, length, map, option_map};
ghost use Rattle.sp_spec.specs.Destruction as destruction;
ghost use Rattle.sp_spec.specs.Term.{none};
ghost use Rattle.sp_law_log_execution.specs.Executed as spec;
ghost use Rattle.sp_term.specs.View.{name_of, view, view_all};
ghost use Rattle.sp_fact.specs.GroundView.{signature_of, symbol_of};
ghost use Rattle.sp_transfer.specs.Executing.{level_of, levels_of, linking_in};

use crate::level::Level;
use sp_destruct::destruction::{Destruction, chains_of, may_apply};
use sp_fact::signature::{Signature, Symbol};
use sp_term::term::{Name, Term, same};
use std::alloc::{AllocError, Global};

/// What links go by.
#[derive(Drop)]
pub struct Linking {
    /// the destructions
    pub destructions: Vec<Destruction>,
    /// the way of each
    pub ways: Vec<Vec<Level>>,
}

// The level of the symbol over so many arguments at this one.
fn level(symbol: &Name, place: usize, count: usize) -> Result<Level, AllocError>
    requires { place < count }
    ensures named { IfOk result (λ l. name_of l.symbol ≡ name_of symbol.now) }
    ensures counted { IfOk result (λ l. (l.front ≡ place) × (l.front + suc l.back ≡ count)) }
{
    let symbol = symbol.clone()?;
    Ok(Level {
        symbol,
        front: place,
        back: count - place - 1,
    })
}

// The way down to the leftmost place where the wanted term stands.
#[cycle(down)]
fn way_to(alloc: Global, term: &Term, wanted: &Term) -> Result<Option<Vec<Level>>, AllocError>
    ensures { IfOk result (λ o. option_map levels_of o ≡ option_map (map spec.level_of) (destruction.way_to (view wanted.now) (view term.now))) }
{
    if same(wanted, term) {
        return Ok(Some(Vec::new(alloc)));
    }
    match term {
        Term::App(symbol, args, _) => way_among(alloc, args, wanted, symbol),
        _ => Ok(None),
    }
}

// The same into the first of these arguments of the symbol in which it stands.
#[cycle(down)]
fn way_among(
    alloc: Global,
    args: &Vec<Term>,
    wanted: &Term,
    symbol: &Name,
) -> Result<Option<Vec<Level>>, AllocError>
    ensures { IfOk result (λ o. option_map levels_of o
        ≡ option_map (map spec.level_of) (destruction.way_among (view wanted.now) (name_of symbol.now) none (view_all args.now.items))) }
{
    for (place, term) in args.iter().enumerate() {
        if let Some(mut way) = way_to(alloc, term, wanted)? {
            way.insert(0, level(symbol, place, args.len())?)?;
            return Ok(Some(way));
        }
    }
    Ok(None)
}

// The same levels.
fn copy_levels(alloc: Global, levels: &[Level]) -> Result<Vec<Level>, AllocError>
    ensures { IfOk result (λ ls. levels_of ls ≡ map level_of levels.now) }
{
    let mut made = Vec::with_capacity(alloc, levels.len())?;
    for level in levels {
        made.push(Level {
            symbol: level.symbol.clone()?,
            front: level.front,
            back: level.back,
        })?;
    }
    Ok(made)
}

// The ways to the places on this one of which there are destructions, behind those found.
fn ways_along(
    alloc: Global,
    symbols: &Vec<Symbol>,
    way: &Vec<Level>,
    mut found: Vec<Vec<Level>>,
) -> Result<Vec<Vec<Level>>, AllocError>
    ensures { IfOk result (λ ws. map levels_of ws.items ≡ map levels_of found.items ++ spec.ways_along (map symbol_of symbols.now.items) [] (levels_of way.now)) }
{
    for (place, level) in way.iter().enumerate() {
        if place + 1 == way.len() {
            return Ok(found);
        }
        if !may_apply(symbols, &level.symbol, level.front + 1 + level.back) {
            return Ok(found);
        }
        found.push(copy_levels(alloc, &way[..place + 1])?)?;
    }
    Ok(found)
}

// The way of each destruction of the signature, in their order.
fn ways_of(alloc: Global, signature: &Signature) -> Result<Vec<Vec<Level>>, AllocError>
    ensures { IfOk result (λ ws. map levels_of ws.items ≡ spec.destruction_ways (signature_of signature.now)) }
{
    let mut found = Vec::new(alloc);
    for equation in &signature.equations {
        if let Some(way) = way_to(alloc, &equation.left, &equation.right)? {
            found = ways_along(alloc, &signature.symbols, &way, found)?;
        }
    }
    Ok(found)
}

/// What the links of the signature go by.
///
/// # Errors
///
/// `AllocError` where memory is wanting.
pub fn linking_of(alloc: Global, signature: &Signature) -> Result<Linking, AllocError>
    ensures { IfOk result (λ l. linking_in l ≡ spec.linking_of (signature_of signature.now)) }
{
    let destructions = chains_of(alloc, signature)?;
    let ways = ways_of(alloc, signature)?;
    Ok(Linking { destructions, ways })
}
