// What texts write: terms and facts are those of any leaves, over variables with their marks.

use sp_fact::fact::{Action, Fact, Facts};
use sp_term::term::Term;

/// How a text marks a variable.
#[derive(Clone, Copy)]
pub enum Mark {
    /// `x`
    Bare,
    /// `~x` or `x:fresh`
    Fresh,
    /// `$x` or `x:pub`
    Public,
    /// `x:msg`
    Message,
    /// `#i` or `i:node`
    Time,
}

/// A variable as it is written.
#[derive(Clone, Copy)]
pub struct WrittenVariable<'a> {
    pub name: &'a str,
    pub mark: Mark,
}

/// A term as it is written, without its brackets; a tuple is pairs within pairs.
pub type WrittenTerm<'a> = Term<WrittenVariable<'a>>;

/// A fact as it is written.
pub type WrittenFact<'a> = Fact<WrittenVariable<'a>>;

/// An action as it is written, without an exclamation mark, which says nothing there.
pub type WrittenAction<'a> = Action<WrittenVariable<'a>>;

/// A rule as it is written.
#[derive(Drop)]
pub struct WrittenRule<'a> {
    pub name: &'a str,
    pub facts: Facts<WrittenVariable<'a>>,
}

/// What `let` binds: a variable, and the term that stands for it.
#[derive(Drop)]
pub struct WrittenBinding<'a> {
    pub variable: WrittenVariable<'a>,
    pub value: WrittenTerm<'a>,
}

/// A formula as it is written.
#[derive(Drop)]
pub enum ReadFormula<'a> {
    True,
    False,
    /// `fact @ variable`
    Happens(WrittenAction<'a>, WrittenVariable<'a>),
    Equals(WrittenTerm<'a>, WrittenTerm<'a>),
    Precedes(WrittenVariable<'a>, WrittenVariable<'a>),
    Not(Box<ReadFormula<'a>>),
    /// All of them: two, and those that follow.
    Both(Box<ReadFormula<'a>>, Box<ReadFormula<'a>>, Vec<ReadFormula<'a>>),
    /// One of them: two, and those that follow.
    Either(Box<ReadFormula<'a>>, Box<ReadFormula<'a>>, Vec<ReadFormula<'a>>),
    Implies(Box<ReadFormula<'a>>, Box<ReadFormula<'a>>),
    /// Each implies the other.
    Equivalent(Box<ReadFormula<'a>>, Box<ReadFormula<'a>>),
    ForAll(Vec<WrittenVariable<'a>>, Box<ReadFormula<'a>>),
    ForSome(Vec<WrittenVariable<'a>>, Box<ReadFormula<'a>>),
}
