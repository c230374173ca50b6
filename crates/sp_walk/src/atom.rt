// The atoms of a formula that was read.

use sp_read_parts::{WrittenAction, WrittenTerm, WrittenVariable};

/// An atom where it stands.
#[derive(Clone, Copy)]
pub enum ReadAtom<'f, 'a> {
    /// `fact @ variable`
    Happens(&'f WrittenAction<'a>, WrittenVariable<'a>),
    Equals(&'f WrittenTerm<'a>, &'f WrittenTerm<'a>),
    Precedes(WrittenVariable<'a>, WrittenVariable<'a>),
}
