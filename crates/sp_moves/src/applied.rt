// What applying a move gives: its cases, or what fails of its condition.

use crate::moves::Case;

/// What fails of a move's condition: the first of these that does.
#[derive(Clone, Copy, Debug, PartialEq, Eq)]
pub enum Clause {
    /// the move is none of those that the call applies
    AnotherCrate,
    /// a position, a time or a premise that the move names isn't in the system
    Absent,
    /// what stands there isn't of the kind that the move asks for
    OtherKind,
    /// the rest of the move's condition fails
    Condition,
}

/// What applying a move gives.
#[derive(Drop)]
pub enum Applied {
    /// its cases
    Cases(Vec<Case>),
    /// no cases, since it is no instance
    NotAnInstance(Clause),
}
