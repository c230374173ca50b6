// What is found in a line.

use sp_fact::ground_term::GroundTerm;
use sp_fact::step::Step;
use sp_term::term::Name;

/// How a term begins.
#[derive(Drop)]
pub enum Head<'a> {
    /// a term without others inside, and what stands behind it
    Whole(GroundTerm, &'a [u8]),
    /// a symbol, and what stands behind its bracket
    Over(Name, &'a [u8]),
    /// a pair; what stands behind its bracket
    Opened(&'a [u8]),
    /// no term
    Nothing,
}

/// The word of a step that has one term.
#[derive(Clone, Copy)]
pub enum Kind {
    /// `fresh`
    Fresh,
    /// `out`
    Out,
    /// `in`
    In,
    /// `pub`
    Public,
    /// `own`
    Own,
}

/// The steps of lines, or the number of the first line that isn't blank and is no step's, counted from 1.
#[derive(Drop)]
pub enum StepLines {
    /// each line that isn't blank is the step at its place
    Steps(Vec<Step>),
    /// no step prints as the line of this number
    Unread(usize),
}
