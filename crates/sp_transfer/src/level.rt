// The levels above a place in a term.

ghost use Rattle.std.specs.Prelude.{◌+◌, ◌<◌, ◌^◌};

use sp_term::term::Name;

/// One step down in a term: the symbol, and how many of its arguments stand before the one that is entered, and behind it.
#[derive(Drop)]
pub struct Level {
    /// the symbol
    pub symbol: Name,
    /// how many arguments stand before the one that is entered
    pub front: usize,
    /// and how many behind it
    pub back: usize,
    ghost are_counted: { front + back + 1 < 2 ^ 64 },
}
