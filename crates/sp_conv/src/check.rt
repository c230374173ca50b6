// All equations of a theory.

ghost use Rattle.std.specs.Prelude.{IfOk, MatchOption, map};
ghost use Rattle.sp_term.specs.Bindings.{bindings};
ghost use Rattle.sp_fact.specs.GroundView.{equation_of, symbol_of};
ghost use Rattle.sp_conv.specs.Check.{IsFirst, IsFirstClash, IsOfNone, IsVerdictOn};
ghost use Rattle.sp_conv.specs.Forms.{IsForm};
ghost use Rattle.sp_conv.specs.Searches.{IsFirstBehind, NoneClashesBehind, NoTwoClash};

use crate::clash::clash;
use crate::form::{Form, form_of};
use sp_fact::signature::{Equation, Symbol};
use sp_term::subst::Subst;
use std::alloc::{AllocError, Global};
use std::fmt;
use thiserror::Error;

/// What is wrong with the equations; places are counted from 0.
#[derive(Drop, Error)]
pub enum EquationFault {
    /// the first equation that isn't of the form that is asked for
    #[error("the equation at place {0} is not of the form that is asked for")]
    WrongShape(usize),
    /// the first equation whose right side is a constant that is private, where nothing else is wrong with any
    #[error("the right side of the equation at place {0} is a private constant")]
    PrivateConstant(usize),
    /// the first two equations that clash, and the unifier of their left sides, renamed apart
    #[error("the equations at the places {0} and {1} clash")]
    Clash(usize, usize, Subst),
}

impl fmt::Debug for EquationFault {
    fn fmt<W: fmt::Write>(&self, f: &mut fmt::Formatter<W>) -> fmt::Result {
        fmt::Display::fmt(self, f)
    }
}

/// What comes of the test.
#[derive(Drop)]
pub enum Checked {
    /// the equations are accepted
    Accepted,
    /// they are not, for this fault
    Faulty(EquationFault),
}

// The place of the first equation of the form.
fn first_of(symbols: &Vec<Symbol>, equations: &Vec<Equation>, form: Form) -> Option<usize>
    ensures { let ss = map symbol_of symbols.now.items in let es = map equation_of equations.now.items in
        MatchOption result (IsOfNone (λ e. IsForm ss es e form) es) (IsFirst (λ e. IsForm ss es e form) es) }
{
    for (place, equation) in equations.iter().enumerate() {
        if form_of(symbols, equations, equation) == form {
            return Some(place);
        }
    }
    None
}

// The place of the first equation behind this one that clashes with it, and by what.
fn first_behind(
    alloc: Global,
    equations: &Vec<Equation>,
    place: usize,
    first: &Equation,
) -> Result<Option<(usize, Subst)>, AllocError>
    ensures { let es = map equation_of equations.now.items in
        IfOk result (λ o. MatchOption o (NoneClashesBehind es place (equation_of first.now))
        (λ f. IsFirstBehind es place (equation_of first.now) f.0 (bindings f.1))) }
{
    for (behind, second) in equations.iter().enumerate() {
        if place < behind {
            let found = clash(alloc, first, second)?;
            if let Some(unifier) = found {
                return Ok(Some((behind, unifier)));
            }
        }
    }
    Ok(None)
}

// The places of the first two equations that clash, and by what.
fn first_clash(
    alloc: Global,
    equations: &Vec<Equation>,
) -> Result<Option<(usize, usize, Subst)>, AllocError>
    ensures { let es = map equation_of equations.now.items in
        IfOk result (λ o. MatchOption o (NoTwoClash es) (λ f. IsFirstClash es f.0 f.1 (bindings f.2))) }
{
    for (place, first) in equations.iter().enumerate() {
        let found = first_behind(alloc, equations, place, first)?;
        if let Some((behind, unifier)) = found {
            return Ok(Some((place, behind, unifier)));
        }
    }
    Ok(None)
}

/// Whether the equations, which are over the symbols, are accepted.
///
/// # Errors
///
/// `AllocError` where memory is wanting, or a variable's number, renamed, doesn't fit.
pub fn check_equations(
    alloc: Global,
    symbols: &Vec<Symbol>,
    equations: &Vec<Equation>,
) -> Result<Checked, AllocError>
    ensures { IfOk result (IsVerdictOn (map symbol_of symbols.now.items) (map equation_of equations.now.items)) }
{
    if let Some(place) = first_of(symbols, equations, Form::WrongShape) {
        return Ok(Checked::Faulty(EquationFault::WrongShape(place)));
    }
    if let Some(place) = first_of(symbols, equations, Form::PrivateConstant) {
        return Ok(Checked::Faulty(EquationFault::PrivateConstant(place)));
    }
    let found = first_clash(alloc, equations)?;
    match found {
        Some((first, second, unifier)) => {
            let fault = EquationFault::Clash(first, second, unifier);
            Ok(Checked::Faulty(fault))
        }
        None => Ok(Checked::Accepted),
    }
}
