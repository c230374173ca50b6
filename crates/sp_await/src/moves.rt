// The moves of a text: what a token does to the first part that is awaited. One function for each part, as in specs/Table.antt.

ghost use Rattle.std.specs.Prelude.{◌≡◌};
ghost use Rattle.sp_await.specs.Table as spec;
ghost use Rattle.sp_await.specs.Views.{move_of};

use crate::awaited::Awaited;

/// The parts that come in the place of one, the first one first.
#[derive(Clone, Copy)]
pub enum Expansion {
    Zero,
    One(Awaited),
    Two(Awaited, Awaited),
    Three(Awaited, Awaited, Awaited),
    Four(Awaited, Awaited, Awaited, Awaited),
    Five(Awaited, Awaited, Awaited, Awaited, Awaited),
    Six(Awaited, Awaited, Awaited, Awaited, Awaited, Awaited),
}

/// What a token does.
#[derive(Clone, Copy)]
pub enum Move {
    /// It is taken, and these parts follow.
    Takes(Expansion),
    /// The part becomes these parts.
    Becomes(Expansion),
    /// The part becomes these parts, and up to the next quote signs of logic are read as the text beside them.
    Opens(Expansion),
    /// It is wrong.
    Stuck,
}

/// The deepest nesting of a token.
pub const LIMIT: u32 = 128;

/// A part that is one token.
pub fn single(holds: bool) -> Move
    ensures { move_of result ≡ spec.single holds }
{
    if holds {
        Move::Takes(Expansion::Zero)
    } else {
        Move::Stuck
    }
}

/// What opens a nesting is wrong where the nesting is too deep.
pub fn nests(nesting: u32, inside: Move) -> Move
    ensures { move_of result ≡ spec.nests nesting (move_of inside) }
{
    if nesting < LIMIT { inside } else { Move::Stuck }
}
