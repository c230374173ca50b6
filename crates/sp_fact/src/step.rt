// The steps of an execution.

use crate::ground_term::GroundTerm;
use sp_term::term::Name;

/// The value of a variable of a rule.
#[derive(Drop)]
pub struct Given {
    /// the variable's name, without its sort mark
    pub variable: Name,
    /// what it stands for
    pub value: GroundTerm,
}

/// One step: an instance of a rule of the theory, of the fresh rule, or of one of the adversary's.
#[derive(Drop)]
pub enum Step {
    /// a fresh name is made
    MakeFresh(GroundTerm),
    /// a rule, by its name, with the values of its variables
    UseRule(Name, Vec<Given>),
    /// the adversary takes what was put out
    TakeOut(GroundTerm),
    /// the adversary puts in what it knows
    PutIn(GroundTerm),
    /// the adversary knows a public name
    KnowPublic(GroundTerm),
    /// the adversary makes a fresh name its own
    MakeOwn(GroundTerm),
    /// the adversary applies a symbol to what it knows
    ApplySymbol(Name, Vec<GroundTerm>),
}
