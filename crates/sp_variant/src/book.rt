// The rules of a theory by their forms.

ghost use Rattle.std.specs.Prelude.{◌≡◌, IfOk, map};
ghost use Rattle.sp_fact.specs.View.{declared_of, rule_of};
ghost use Rattle.sp_fact.specs.GroundView.{equation_of};
ghost use Rattle.sp_spec_forms.specs.Forms.{forms_of};
ghost use Rattle.sp_book.specs.View.{rule_forms_of};
ghost use Rattle.sp_book.specs.BookView.{book_of};

use crate::forms::forms;
use sp_book::book::RuleBook;
use sp_book::form::RuleForms;
use sp_fact::rule::{Declared, Rule};
use sp_fact::signature::Equation;
use std::alloc::{AllocError, Global};

// Equal ones.
fn copies(alloc: Global, variables: &Vec<Declared>) -> Result<Vec<Declared>, AllocError>
    ensures { IfOk result (λ xs. map declared_of xs.items ≡ map declared_of variables.now.items) }
{
    let mut made = Vec::with_capacity(alloc, variables.len())?;
    for variable in variables {
        let name = variable.name.clone()?;
        made.push(Declared {
            name,
            sort: variable.sort,
        })?;
    }
    Ok(made)
}

/// The rule's name, its variables, and its forms.
///
/// # Errors
///
/// `AllocError` where memory is wanting, or a number of a new variable doesn't fit.
pub fn rule_forms(
    alloc: Global,
    equations: &Vec<Equation>,
    rule: &Rule,
) -> Result<RuleForms, AllocError>
    ensures { IfOk result (λ r. rule_forms_of r ≡ forms_of (map equation_of equations.now.items) (rule_of rule.now)) }
{
    let name = rule.name.clone()?;
    let variables = copies(alloc, &rule.variables)?;
    let forms = forms(alloc, equations, rule)?;
    Ok(RuleForms {
        name,
        variables,
        forms,
    })
}

/// The book of the forms of these rules.
///
/// # Errors
///
/// `AllocError` where memory is wanting, or a number of a new variable doesn't fit.
pub fn book(
    alloc: Global,
    equations: &Vec<Equation>,
    rules: &Vec<Rule>,
) -> Result<RuleBook, AllocError>
    ensures { IfOk result (λ b. book_of b ≡ map (forms_of (map equation_of equations.now.items)) (map rule_of rules.now.items)) }
{
    let mut made = Vec::with_capacity(alloc, rules.len())?;
    for rule in rules {
        made.push(rule_forms(alloc, equations, rule)?)?;
    }
    let book = RuleBook::new(alloc, made)?;
    Ok(book)
}
