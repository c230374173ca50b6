// Facts, the facts of a step, and rules.

use sp_book::book::RuleBook;
use sp_fact::fact::{Action, Fact, Facts};
use sp_fact::rule::{Declared, Rule};
use sp_term::term::{Name, Sort, Term};
use std::alloc::{AllocError, Global};

/// The linear fact of the symbol over these terms.
pub fn linear(alloc: Global, symbol: &str, args: Vec<Term>) -> Result<Fact, AllocError> {
    let symbol = Name::new(alloc, symbol)?;
    Ok(Fact {
        symbol,
        persistent: false,
        args,
    })
}

/// The persistent fact of the symbol over these terms.
pub fn persistent(alloc: Global, symbol: &str, args: Vec<Term>) -> Result<Fact, AllocError> {
    let symbol = Name::new(alloc, symbol)?;
    Ok(Fact {
        symbol,
        persistent: true,
        args,
    })
}

/// The action of the symbol over these terms.
pub fn action(alloc: Global, symbol: &str, args: Vec<Term>) -> Result<Action, AllocError> {
    let symbol = Name::new(alloc, symbol)?;
    Ok(Action { symbol, args })
}

/// The rule of this name over variables of these names and sorts.
pub fn rule(
    alloc: Global,
    name: &str,
    variables: &[(&str, Sort)],
    facts: Facts,
) -> Result<Rule, AllocError> {
    let mut declared = Vec::new(alloc);
    for (text, sort) in variables {
        let name = Name::new(alloc, text)?;
        declared.push(Declared { name, sort: *sort })?;
    }
    let name = Name::new(alloc, name)?;
    Ok(Rule {
        name,
        variables: declared,
        facts,
    })
}

/// The book without rules.
pub fn no_rules(alloc: Global) -> Result<RuleBook, AllocError> {
    RuleBook::new(alloc, Vec::new(alloc))
}
