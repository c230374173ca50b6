// The nodes of proof trees: open leaves with their systems, logs with which the search ends, and moves.

use sp_learn::log::Log;
use sp_step::choose::Ranked;
use sp_step::moves::Move;
use sp_system::system::System;

/// A leaf that is not proved yet.
#[derive(Drop)]
pub struct OpenLeaf {
    /// the system to be solved
    pub system: System,
    /// the move that is chosen for it, if there is one
    pub choice: Option<Ranked>,
    /// how many moves stand above it
    pub depth: u64,
}

/// A node of a proof tree.
#[derive(Drop)]
pub enum Node {
    /// an open leaf
    Open(Box<OpenLeaf>),
    /// the search ends at this leaf, with this log
    Ended(Box<Log>),
    /// a move, and the names of its cases, in their order
    Inner(Move, Vec<String>),
}
