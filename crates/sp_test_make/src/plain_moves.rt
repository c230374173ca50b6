// Moves as plain data, which tables can hold, and what is made of them.

use sp_moves::moves::{Move, Side};
use sp_term::term::Name;
use std::alloc::{AllocError, Global};

/// A term that stands for a name.
#[derive(Clone, Copy)]
pub enum PlainSide {
    /// the fresh variable of this number
    Fresh(u128),
    /// the variable of sort pub of this number
    Public(u128),
    /// the public name of this text
    Constant(&'static str),
}

/// A move.
#[derive(Clone, Copy)]
pub enum PlainMove {
    Simplify,
    Contradiction,
    Unproved,
    Solved,
    Induction,
    /// by a place
    Or(u128),
    /// by a place
    Action(u128),
    /// by a time and a place
    Premise(u128, u128),
    /// by a time
    Know(u128),
    /// by a time
    Chain(u128),
    /// by a time
    Source(u128),
    /// by two times
    Compare(u128, u128),
    /// by a number
    Top(u128),
    Same(PlainSide, PlainSide),
    MoreEvents,
    Finish,
}

fn side_of(alloc: Global, plain: PlainSide) -> Result<Side, AllocError> {
    match plain {
        PlainSide::Fresh(number) => Ok(Side::Fresh(number)),
        PlainSide::Public(number) => Ok(Side::Public(number)),
        PlainSide::Constant(text) => {
            let name = Name::new(alloc, text)?;
            Ok(Side::Constant(name))
        }
    }
}

/// The move.
pub fn move_of(alloc: Global, plain: PlainMove) -> Result<Move, AllocError> {
    match plain {
        PlainMove::Simplify => Ok(Move::Simplify),
        PlainMove::Contradiction => Ok(Move::Contradiction),
        PlainMove::Unproved => Ok(Move::Unproved),
        PlainMove::Solved => Ok(Move::Solved),
        PlainMove::Induction => Ok(Move::Induction),
        PlainMove::Or(place) => Ok(Move::Or(place)),
        PlainMove::Action(place) => Ok(Move::Action(place)),
        PlainMove::Premise(time, place) => Ok(Move::Premise(time, place)),
        PlainMove::Know(time) => Ok(Move::Know(time)),
        PlainMove::Chain(time) => Ok(Move::Chain(time)),
        PlainMove::Source(time) => Ok(Move::Source(time)),
        PlainMove::Compare(first, second) => Ok(Move::Compare(first, second)),
        PlainMove::Top(number) => Ok(Move::Top(number)),
        PlainMove::Same(left, right) => {
            let left = side_of(alloc, left)?;
            let right = side_of(alloc, right)?;
            Ok(Move::Same(left, right))
        }
        PlainMove::MoreEvents => Ok(Move::MoreEvents),
        PlainMove::Finish => Ok(Move::Finish),
    }
}
