// Rules over numbered variables.

use crate::fact::Facts;
use sp_term::term::{Name, Sort};

/// A variable of a rule, by its name.
#[derive(Drop)]
pub struct Declared {
    /// its name
    pub name: Name,
    /// what it ranges over
    pub sort: Sort,
}

/// A rule; the variable of number k is the k-th of the list.
#[derive(Drop)]
pub struct Rule {
    /// its name
    pub name: Name,
    /// its variables, in first-seen order
    pub variables: Vec<Declared>,
    /// what it takes, shows and adds
    pub facts: Facts,
}
