// What the adversary gets by applying a symbol: by the first equation whose left side that is, or else the application itself.

ghost use Rattle.std.specs.Prelude.{◌≡◌, [], IfOk, None, OnOk, map, option_map, unwrap_or};
ghost use Rattle.sp_spec.specs.Term.{app, valued};
ghost use Rattle.sp_spec.specs.Destruction.{way_to};
ghost use Rattle.sp_law_equal.specs.Matching.{value_in};
ghost use Rattle.sp_law_adversary.specs.Learning as spec;
ghost use Rattle.sp_term.specs.View.{name_of, view, view_all};
ghost use Rattle.sp_fact.specs.GroundView.{equation_of, ground_of, grounds_of, signature_of, symbol_of};
ghost use Rattle.sp_norm.specs.Bounds.{bounds};
ghost use Rattle.sp_learn.specs.View.{how_of};
ghost use Rattle.sp_transfer.specs.Down.{chain_among};
ghost use Rattle.sp_transfer.specs.View.{chain_of, log_in};

use crate::learning::{Chain, absorb, is_learnt, learn, way_learnt};
use sp_conv::form::has_part;
use sp_fact::ground_term::GroundTerm;
use sp_fact::signature::{Equation, Signature, Symbol};
use sp_learn::log::{Entry, How};
use sp_norm::instance::value;
use sp_term::found::matches;
use sp_term::subst::Values;
use sp_term::term::{Name, Term, copied, nesting_over, same};
use std::alloc::{AllocError, Global};
use std::rc::Rc;

// The chain by which a message was learnt, taken further to this end.
fn chain_by(how: Option<&How>, end: &GroundTerm) -> Result<Option<Chain>, AllocError>
    ensures { IfOk result (λ o. option_map chain_of o ≡ spec.chain_from (option_map (λ h. how_of h.now) how.entry) (ground_of end.now) None) }
{
    match how {
        Some(
            How::Chain {
                step,
                conclusion,
                messages,
            },
        ) => {
            let mut longer = copied(messages)?;
            longer.push(end.clone()?)?;
            Ok(Some(Chain {
                position: *step,
                place: *conclusion,
                messages: longer,
            }))
        }
        _ => Ok(None),
    }
}

// How the instance of the term was learnt, if it was.
fn way_entered<'a>(
    alloc: Global,
    entries: &'a Vec<Entry>,
    values: &Values,
    term: &Term,
) -> Result<Option<&'a How>, AllocError>
    ensures { IfOk result (λ o. option_map (λ h. how_of h.now) o
        ≡ spec.way_learnt (log_in entries.now.items) (valued (value_in (bounds values.now)) (view term.now))) }
{
    let entered = value(alloc, values, term)?;
    Ok(way_learnt(entries, &entered))
}

// The chain that leads to the end, down the way in the term to where the wanted one stands first: the first message on it that was not made came by a chain.
#[cycle(down)]
fn chain_down(
    alloc: Global,
    term: &Term,
    wanted: &Term,
    entries: &Vec<Entry>,
    values: &Values,
    end: &GroundTerm,
) -> Result<Option<Chain>, AllocError>
    ensures { IfOk result (λ o. option_map chain_of o ≡ spec.chain_down (log_in entries.now.items) (value_in (bounds values.now)) (ground_of end.now)
        (unwrap_or (way_to (view wanted.now) (view term.now)) [])) }
{
    match term {
        Term::App(_, args, _) => {
            if same(wanted, term) {
                return Ok(None);
            }
            down_among(alloc, args, wanted, entries, values, end)
        }
        _ => Ok(None),
    }
}

// The same into the first of these terms in which it stands.
#[cycle(down)]
fn down_among(
    alloc: Global,
    args: &Vec<Term>,
    wanted: &Term,
    entries: &Vec<Entry>,
    values: &Values,
    end: &GroundTerm,
) -> Result<Option<Chain>, AllocError>
    ensures { IfOk result (λ o. option_map chain_of o ≡ chain_among (log_in entries.now.items) (value_in (bounds values.now)) (ground_of end.now)
        (view wanted.now) (view_all args.now.items)) }
{
    for term in args {
        if has_part(term, wanted) {
            let how = way_entered(alloc, entries, values, term)?;
            if let Some(How::Constructed) = how {
                return chain_down(alloc, term, wanted, entries, values, end);
            }
            return chain_by(how, end);
        }
    }
    Ok(None)
}

// An instance of the equation's left side gives that of its right side.
fn take_out(
    alloc: Global,
    symbols: &Vec<Symbol>,
    equation: &Equation,
    values: &Values,
    entries: &mut Vec<Entry>,
) -> Result<(), AllocError>
    ensures { OnOk result (log_in entries.new.items
        ≡ spec.taken_out (map symbol_of symbols.now.items) (equation_of equation.now) (value_in (bounds values.now)) (log_in entries.old.items)) }
{
    let message = value(alloc, values, &equation.right)?;
    if is_learnt(entries, &message) {
        return Ok(());
    }
    let found = chain_down(
        alloc,
        &equation.left,
        &equation.right,
        entries,
        values,
        &message,
    )?;
    match found {
        Some(chain) => absorb(alloc, symbols, &chain, &message, entries),
        None => learn(entries, &message, How::Constructed),
    }
}

// The first equation whose left side matches, and how.
fn equation_for<'a>(
    alloc: Global,
    equations: &'a Vec<Equation>,
    message: &GroundTerm,
) -> Result<Option<(&'a Equation, Values)>, AllocError>
    ensures { IfOk result (λ o. option_map (λ used. (equation_of used.0.now, bounds used.1)) o
        ≡ spec.equation_for (map equation_of equations.now.items) (ground_of message.now)) }
{
    for equation in equations {
        if let Some(values) = matches(alloc, &equation.left, message)? {
            return Ok(Some((equation, values)));
        }
    }
    Ok(None)
}

// By that equation, or else the message is made.
fn reduce_or_make(
    alloc: Global,
    signature: &Signature,
    message: &GroundTerm,
    entries: &mut Vec<Entry>,
) -> Result<(), AllocError>
    ensures { OnOk result (log_in entries.new.items ≡ spec.reduced_or_made (map symbol_of signature.now.symbols.items) (ground_of message.now) (log_in entries.old.items)
        (spec.equation_for (map equation_of signature.now.equations.items) (ground_of message.now))) }
{
    match equation_for(alloc, &signature.equations, message)? {
        Some((equation, values)) => take_out(alloc, &signature.symbols, equation, &values, entries),
        None => learn(entries, message, How::Constructed),
    }
}

/// The symbol is applied to learnt messages: the normal form of that is learnt.
pub fn apply_symbol(
    alloc: Global,
    signature: &Signature,
    symbol: &Name,
    terms: Vec<GroundTerm>,
    entries: &mut Vec<Entry>,
) -> Result<(), AllocError>
    ensures { OnOk result (log_in entries.new.items
        ≡ spec.applied (signature_of signature.now) (name_of symbol.now) (grounds_of terms.items) (log_in entries.old.items)) }
{
    let name = symbol.clone()?;
    let nesting = nesting_over(&terms)?;
    let shared = Rc::new(alloc, terms)?;
    let message = Term::App(name, shared, nesting);
    reduce_or_make(alloc, signature, &message, entries)
}
