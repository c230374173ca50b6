use crate::proof::WrittenProof;
use sp_fact::signature::Symbol;
use sp_read_parts::{ReadFormula, WrittenBinding, WrittenRule, WrittenTerm};
use sp_term::term::Name;

/// Whether a lemma speaks of all traces, or says that there is one.
#[derive(Clone, Copy)]
pub enum TraceKind {
    AllTraces,
    ExistsTrace,
}

/// Where the proof of a lemma stands in the text.
#[derive(Clone, Copy, PartialEq, Eq)]
pub struct Span {
    /// the place behind the closing quote of the lemma's formula
    pub from: usize,
    /// the place behind the proof; that same place where there is none
    pub to: usize,
}

/// What stands in the brackets behind the name of a lemma.
#[derive(Clone, Copy)]
pub enum Attribute<'a> {
    /// `reuse`
    Reused,
    /// `sources`, or `typing`
    OfSources,
    /// `use_induction`
    ByInduction,
    /// `hide_lemma=` and the name of a lemma
    Hiding(&'a str),
    /// `heuristic=` and a word
    RankedBy(&'a str),
    /// any other word
    Unknown(&'a str),
}

/// A restriction as it is written.
#[derive(Drop)]
pub struct WrittenRestriction<'a> {
    pub name: &'a str,
    pub formula: ReadFormula<'a>,
}

/// A rule as it is written, behind its bindings.
#[derive(Drop)]
pub struct BoundRule<'a> {
    /// what `let` binds, from the top down
    pub bindings: Vec<WrittenBinding<'a>>,
    /// the rule, in which the bound names stand
    pub rule: WrittenRule<'a>,
}

/// A lemma as it is written.
#[derive(Drop)]
pub struct WrittenLemma<'a> {
    pub name: &'a str,
    pub attributes: Vec<Attribute<'a>>,
    pub kind: TraceKind,
    pub formula: ReadFormula<'a>,
    pub proof: Option<WrittenProof<'a>>,
    pub span: Span,
}

/// An equation as it is written.
#[derive(Drop)]
pub struct WrittenEquation<'a> {
    pub left: WrittenTerm<'a>,
    pub right: WrittenTerm<'a>,
}

/// An item of a theory.
#[derive(Drop)]
pub enum Item<'a> {
    /// The names of builtins.
    Builtins(Vec<Name>),
    /// Symbols with their arities.
    Functions(Vec<Symbol>),
    Equations(Vec<WrittenEquation<'a>>),
    /// The words of a heuristic.
    Heuristic(Vec<&'a str>),
    /// A block of text, by its word.
    Block(&'a str),
    Rule(BoundRule<'a>),
    Restriction(WrittenRestriction<'a>),
    Lemma(WrittenLemma<'a>),
}

/// A theory as it is written, and the place in the text behind its word `end`.
#[derive(Drop)]
pub struct ReadTheory<'a> {
    pub name: &'a str,
    pub items: Vec<Item<'a>>,
    pub behind_end: usize,
}
