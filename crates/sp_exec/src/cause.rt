// Why a step can't be done.

use thiserror::Error;

/// Why a step can't be done, the least cause first.
#[derive(Clone, Copy, Debug, PartialEq, Eq, Error)]
pub enum Cause {
    /// there is no rule of the name, or no symbol that the adversary may apply
    #[error("there is no rule of this name, or no symbol that the adversary may apply")]
    NoSuchRule,
    /// the values aren't those of the rule's variables
    #[error("the values are not those of the rule's variables")]
    NoInstance,
    /// a premise isn't there
    #[error("a premise is missing")]
    PremiseAbsent,
    /// the fresh name was made before
    #[error("the fresh name was made before")]
    FreshNameTwice,
    /// a term hasn't the sort that is wanted, or has other symbols than the signature's
    #[error("a term has the wrong sort, or a symbol that the theory does not declare")]
    WrongSort,
}
