// The forms of a rule.

use sp_fact::fact::Facts;
use sp_fact::rule::Declared;
use sp_term::term::{Name, Term};

/// A form of a rule: an instance of it in which equations were used at some places, in normal form.
#[derive(Drop)]
pub struct Form {
    /// what is taken, shown and added
    pub facts: Facts,
    /// how many variables its facts have; they are numbered below this
    pub count: usize,
    /// what stands for each variable of the rule
    pub kept: Vec<Term>,
}

/// A rule by its forms.
#[derive(Drop)]
pub struct RuleForms {
    /// its name
    pub name: Name,
    /// its variables, in first-seen order
    pub variables: Vec<Declared>,
    /// its forms
    pub forms: Vec<Form>,
}
