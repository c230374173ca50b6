// Ground terms, facts and actions over them, and steps.

use sp_fact::ground_fact::{GroundAction, GroundFact};
use sp_fact::ground_term::GroundTerm;
use sp_fact::step::{Given, Step};
use sp_term::term::{Name, Term, nesting_over};
use std::alloc::{AllocError, Global};
use std::rc::Rc;

/// The public name of this text.
pub fn public(alloc: Global, text: &str) -> Result<GroundTerm, AllocError> {
    Ok(Term::Constant(Name::new(alloc, text)?))
}

/// The symbol over these terms.
pub fn applied(
    alloc: Global,
    symbol: &str,
    args: Vec<GroundTerm>,
) -> Result<GroundTerm, AllocError> {
    let symbol = Name::new(alloc, symbol)?;
    let nesting = nesting_over(&args)?;
    Ok(Term::App(symbol, Rc::new(alloc, args)?, nesting))
}

/// The pair of two terms.
pub fn paired(
    alloc: Global,
    first: GroundTerm,
    second: GroundTerm,
) -> Result<GroundTerm, AllocError> {
    let parts = vec![in alloc; first, second]?;
    applied(alloc, "pair", parts)
}

/// The fact of the symbol over this term.
pub fn fact_of(
    alloc: Global,
    symbol: &str,
    persistent: bool,
    term: GroundTerm,
) -> Result<GroundFact, AllocError> {
    let args = vec![in alloc; term]?;
    let symbol = Name::new(alloc, symbol)?;
    Ok(GroundFact {
        symbol,
        persistent,
        args,
    })
}

/// The action of the symbol over these terms.
pub fn shown(
    alloc: Global,
    symbol: &str,
    args: Vec<GroundTerm>,
) -> Result<GroundAction, AllocError> {
    let symbol = Name::new(alloc, symbol)?;
    Ok(GroundAction { symbol, args })
}

/// The variable of this name has this value.
pub fn given(alloc: Global, name: &str, value: GroundTerm) -> Result<Given, AllocError> {
    let variable = Name::new(alloc, name)?;
    Ok(Given { variable, value })
}

/// The rule of this name is used with these values.
pub fn use_rule(alloc: Global, rule: &str, values: Vec<Given>) -> Result<Step, AllocError> {
    Ok(Step::UseRule(Name::new(alloc, rule)?, values))
}

/// The adversary applies the symbol of this name to these terms.
pub fn apply_symbol(
    alloc: Global,
    symbol: &str,
    terms: Vec<GroundTerm>,
) -> Result<Step, AllocError> {
    Ok(Step::ApplySymbol(Name::new(alloc, symbol)?, terms))
}
