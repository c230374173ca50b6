// Moves and cases.

ghost use Rattle.std.specs.Prelude.{◌≡◌, option_map, slice_get};
ghost use Rattle.sp_formula.specs.FormulaView.{formula_of};
ghost use Rattle.sp_system.specs.SystemView.{system_of};
ghost use Rattle.sp_moves.specs.View.{side_of, move_of};

use sp_formula::formula::Formula;
use sp_system::system::System;
use sp_term::term::Name;
use std::alloc::AllocError;

/// A term that stands for a name.
#[derive(Debug, PartialEq, Eq, Drop)]
pub enum Side {
    /// the fresh variable of this number
    Fresh(u128),
    /// the variable of sort pub of this number
    Public(u128),
    /// the public name of this text
    Constant(Name),
}

impl Clone for Side {
    ghost is_clone = { λ a b. side_of b ≡ side_of a };

    fn clone(&self) -> Result<Side, AllocError> {
        match self {
            Side::Fresh(number) => Ok(Side::Fresh(*number)),
            Side::Public(number) => Ok(Side::Public(*number)),
            Side::Constant(name) => {
                let name = name.clone()?;
                Ok(Side::Constant(name))
            }
        }
    }
}

/// What is done at a node of a proof tree. Places in lists are counted from 0; a place may be named that isn't there.
#[derive(Debug, PartialEq, Eq, Drop)]
pub enum Move {
    /// elementary moves
    Simplify,
    /// the system has no solution
    Contradiction,
    /// an open leaf
    Unproved,
    /// the search ends here: a log has been found
    Solved,
    /// the empty trace, and one that isn't empty
    Induction,
    /// the formula at this place is a disjunction, and each of its parts is a case
    Or(u128),
    /// the formula at this place is an action, and its event is looked for
    Action(u128),
    /// the source of a premise is looked for, by the time of its event and its place there
    Premise(u128, u128),
    /// how the message is learnt that is learnt at this time
    Know(u128),
    /// how the chain goes on that leads to the message learnt at this time
    Chain(u128),
    /// how the message is learnt that is learnt at this time, by the source table
    Source(u128),
    /// which of two times is before the other, or whether they are one
    Compare(u128, u128),
    /// what stands for the message variable of this number
    Top(u128),
    /// whether two terms that stand for names are the same
    Same(Side, Side),
    /// whether something more happens
    MoreEvents,
    /// the search ends here: nothing is left to decide, and no log has been found
    Finish,
}

impl Clone for Move {
    ghost is_clone = { λ m n. move_of n ≡ move_of m };

    fn clone(&self) -> Result<Move, AllocError> {
        match self {
            Move::Simplify => Ok(Move::Simplify),
            Move::Contradiction => Ok(Move::Contradiction),
            Move::Unproved => Ok(Move::Unproved),
            Move::Solved => Ok(Move::Solved),
            Move::Induction => Ok(Move::Induction),
            Move::Or(place) => Ok(Move::Or(*place)),
            Move::Action(place) => Ok(Move::Action(*place)),
            Move::Premise(time, place) => Ok(Move::Premise(*time, *place)),
            Move::Know(time) => Ok(Move::Know(*time)),
            Move::Chain(time) => Ok(Move::Chain(*time)),
            Move::Source(time) => Ok(Move::Source(*time)),
            Move::Compare(first, second) => Ok(Move::Compare(*first, *second)),
            Move::Top(number) => Ok(Move::Top(*number)),
            Move::Same(left, right) => {
                let left = left.clone()?;
                let right = right.clone()?;
                Ok(Move::Same(left, right))
            }
            Move::MoreEvents => Ok(Move::MoreEvents),
            Move::Finish => Ok(Move::Finish),
        }
    }
}

/// The place of the list that the number is, if it is one.
pub fn place_in<T>(items: &Vec<T>, number: u128) -> Option<usize>
    ensures { result ≡ option_map (λ x. number) (slice_get items.now.items number) }
{
    if number < items.len() as u128 {
        Some(number as usize)
    } else {
        None
    }
}

/// The place among the system's formulas that the number is, if it is one.
pub fn formula_place(system: &System, number: u128) -> Option<usize>
    ensures { result ≡ option_map (λ f. number) (slice_get system.now.formulas.items number) }
{
    place_in(&system.formulas, number)
}

/// The formula at the place, if there are so many.
pub fn formula_at(system: &System, place: u128) -> Option<&Formula>
    ensures { option_map (λ f. formula_of f.now) result ≡ slice_get (system_of system.now).formulas place }
{
    let place = formula_place(system, place)?;
    let formula = system.formulas.get(place)?;
    Some(formula.formula())
}

/// One of the systems that a move leads to.
#[derive(Drop)]
pub struct Case {
    /// its name; empty where a move has one case alone
    pub name: String,
    /// the system
    pub system: System,
}
