// Terms of rules and of systems.

use sp_term::term::{Name, Sort, Term, Variable, nesting_over};
use std::alloc::{AllocError, Global};
use std::rc::Rc;

/// The names of these texts.
pub fn names(alloc: Global, texts: &[&str]) -> Result<Vec<Name>, AllocError> {
    let mut made = Vec::new(alloc);
    for text in texts {
        made.push(Name::new(alloc, text)?)?;
    }
    Ok(made)
}

/// The variable of this sort and number.
pub fn variable(sort: Sort, number: u128) -> Term {
    Term::Var(Variable { sort, number })
}

/// The public name of this text.
pub fn constant(alloc: Global, text: &str) -> Result<Term, AllocError> {
    Ok(Term::Constant(Name::new(alloc, text)?))
}

/// The symbol over these terms.
pub fn over(alloc: Global, symbol: &str, terms: Vec<Term>) -> Result<Term, AllocError> {
    let name = Name::new(alloc, symbol)?;
    let nesting = nesting_over(&terms)?;
    Ok(Term::App(name, Rc::new(alloc, terms)?, nesting))
}

/// The pair of two terms.
pub fn pair(alloc: Global, first: Term, second: Term) -> Result<Term, AllocError> {
    let parts = vec![in alloc; first, second]?;
    over(alloc, "pair", parts)
}

/// Variables of these sorts and numbers.
pub fn variables(alloc: Global, wanted: &[(Sort, u128)]) -> Result<Vec<Term>, AllocError> {
    let mut made = Vec::new(alloc);
    for (sort, number) in wanted {
        made.push(variable(*sort, *number))?;
    }
    Ok(made)
}
