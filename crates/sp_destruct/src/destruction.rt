// What the adversary gets by the equations, from parts of their left sides.

ghost use Rattle.std.specs.Prelude.{◌≡◌, ◌++◌, ◌+◌, ◌<◌, IfOk, drop, length, map, take, [], ◌∷◌};
ghost use Rattle.sp_spec.specs.Term.{none, joined};
ghost use Rattle.sp_spec.specs.Destruction.{destructions, is_public, way_among, way_to};
ghost use Rattle.sp_term.specs.View.{name_of, view, view_all};
ghost use Rattle.sp_fact.specs.GroundView.{signature_of, symbol_of};
ghost use Rattle.sp_destruct.specs.View.{along_from, destruction_of};

use sp_conv::form::has_part;
use sp_fact::signature::{Signature, Symbol};
use sp_norm::over::has_public;
use sp_term::term::{Name, Term, copied, same};
use std::alloc::{AllocError, Global};

/// From a message of the pattern, and from the side messages, follows the result.
#[derive(Drop)]
pub struct Destruction {
    /// what is destructed
    pub pattern: Term,
    /// what must be known beside it, from the root of the left side down
    pub sides: Vec<Term>,
    /// the right side
    pub result: Term,
}

/// Whether the adversary may apply the symbol to so many arguments.
#[tactic(auto, using(crate::proofs::Ways::public_same))]
pub fn may_apply(symbols: &Vec<Symbol>, symbol: &Name, count: usize) -> bool
    ensures { result ≡ is_public (map symbol_of symbols.now.items) (name_of symbol.now) count }
{
    has_public(symbols, symbol, count)
}

// The first terms, and behind them copies of these.
fn with_copies(mut terms: Vec<Term>, others: &[Term]) -> Result<Vec<Term>, AllocError>
    ensures { IfOk result (λ ts. view_all ts.items ≡ joined (view_all terms.items) (view_all others.now)) }
{
    for term in others {
        terms.push(term.clone()?)?;
    }
    Ok(terms)
}

// The terms, and behind them copies of the arguments but the one at the place.
fn with_siblings(terms: Vec<Term>, args: &Vec<Term>, place: usize) -> Result<Vec<Term>, AllocError>
    requires { place < length args.now.items }
    ensures { IfOk result (λ ts. view_all ts.items
        ≡ joined (view_all terms.items) (joined (view_all (take place args.now.items)) (view_all (drop (place + 1) args.now.items)))) }
{
    let front = with_copies(terms, &args[..place])?;
    with_copies(front, &args[place + 1..])
}

// The destruction of the term.
fn one(wanted: &Term, term: &Term, sides: &Vec<Term>) -> Result<Destruction, AllocError>
    ensures { IfOk result (λ d. destruction_of d ≡ record { pattern = view term.now; sides = view_all sides.now.items; result = view wanted.now }) }
{
    let pattern = term.clone()?;
    let sides = copied(sides)?;
    let result = wanted.clone()?;
    Ok(Destruction {
        pattern,
        sides,
        result,
    })
}

// The destruction of the term, behind these.
fn with_one(
    wanted: &Term,
    term: &Term,
    sides: &Vec<Term>,
    mut found: Vec<Destruction>,
) -> Result<Vec<Destruction>, AllocError>
    ensures { IfOk result (λ ds. map destruction_of ds.items ≡ map destruction_of found.items
        ++ record { pattern = view term.now; sides = view_all sides.now.items; result = view wanted.now } ∷ []) }
{
    let made = one(wanted, term, sides)?;
    found.push(made)?;
    Ok(found)
}

// The destructions below the term, on the way to where the wanted one stands in it first, behind these.
#[cycle(way)]
fn below(
    alloc: Global,
    term: &Term,
    wanted: &Term,
    symbols: &Vec<Symbol>,
    sides: Vec<Term>,
    found: Vec<Destruction>,
) -> Result<Vec<Destruction>, AllocError>
    ensures { IfOk result (λ ds. map destruction_of ds.items ≡ map destruction_of found.items
        ++ along_from (map symbol_of symbols.now.items) (view wanted.now) (view_all sides.items) (way_to (view wanted.now) (view term.now))) }
{
    match term {
        Term::App(symbol, args, _) => {
            if same(wanted, term) {
                return Ok(found);
            }
            below_one(alloc, args, symbol, wanted, symbols, sides, found)
        }
        _ => Ok(found),
    }
}

// The same below a symbol over these arguments.
#[cycle(way)]
fn below_one(
    alloc: Global,
    args: &Vec<Term>,
    symbol: &Name,
    wanted: &Term,
    symbols: &Vec<Symbol>,
    sides: Vec<Term>,
    found: Vec<Destruction>,
) -> Result<Vec<Destruction>, AllocError>
    ensures { IfOk result (λ ds. map destruction_of ds.items ≡ map destruction_of found.items
        ++ along_from (map symbol_of symbols.now.items) (view wanted.now) (view_all sides.items) (way_among (view wanted.now) (name_of symbol.now) none (view_all args.now.items))) }
{
    if !may_apply(symbols, symbol, args.len()) {
        return Ok(found);
    }
    for (place, term) in args.iter().enumerate() {
        if has_part(term, wanted) {
            if same(wanted, term) {
                return Ok(found);
            }
            let sides = with_siblings(sides, args, place)?;
            let more = with_one(wanted, term, &sides, found)?;
            return below(alloc, term, wanted, symbols, sides, more);
        }
    }
    Ok(found)
}

/// The destructions of the signature: of each equation, for each place on the way from the root of the left side to where the right side stands in it
/// first, as long as each symbol above is public.
///
/// # Errors
///
/// `AllocError` where memory is wanting.
pub fn chains_of(alloc: Global, signature: &Signature) -> Result<Vec<Destruction>, AllocError>
    ensures { IfOk result (λ ds. map destruction_of ds.items ≡ destructions (signature_of signature.now)) }
{
    let mut found = Vec::new(alloc);
    for equation in &signature.equations {
        found = below(
            alloc,
            &equation.left,
            &equation.right,
            &signature.symbols,
            Vec::new(alloc),
            found,
        )?;
    }
    Ok(found)
}
