// The values that a step gives to a rule's variables.

ghost use Rattle.std.specs.Prelude.{◌≡◌, IfOk, map, option_map};
ghost use Rattle.sp_law_run.specs.Given as spec;
ghost use Rattle.sp_term.specs.View.{name_of, sort_of};
ghost use Rattle.sp_fact.specs.GroundView.{given_of, ground_of, symbol_of};
ghost use Rattle.sp_norm.specs.Bounds.{bounds};
ghost use Rattle.sp_fact.specs.View.{declared_of};
ghost use Rattle.sp_exec.specs.Next as next;

use sp_fact::ground_term::GroundTerm;
use sp_fact::rule::Declared;
use sp_fact::signature::Symbol;
use sp_fact::step::Given;
use sp_norm::over::is_over;
use sp_term::subst::Values;
use sp_term::term::{Name, Sort, Variable, has_sort};
use std::alloc::{AllocError, Global};

/// The first value that is given to the name.
fn given_value<'a>(given: &'a Vec<Given>, name: &Name) -> Option<&'a GroundTerm>
    ensures { option_map (λ t. ground_of t.now) result ≡ spec.given_value (name_of name.now) (map given_of given.now.items) }
{
    for one in given {
        if one.variable == *name {
            return Some(&one.value);
        }
    }
    None
}

/// Each variable with its value, if there is one for each, and no more.
pub fn bound_by(
    alloc: Global,
    variables: &Vec<Declared>,
    given: &Vec<Given>,
) -> Result<Option<Values>, AllocError>
    ensures { IfOk result (λ r. option_map bounds r ≡ spec.bound_by (map declared_of variables.now.items) (map given_of given.now.items)) }
{
    if variables.len() != given.len() {
        return Ok(None);
    }
    let mut values = Values::new(alloc);
    for (number, declared) in variables.iter().enumerate() {
        match given_value(given, &declared.name) {
            Some(value) => {
                let variable = Variable {
                    sort: declared.sort,
                    number: number as u128,
                };
                values.push(variable, value.clone()?)?;
            }
            None => return Ok(None),
        }
    }
    Ok(Some(values))
}

/// Whether the term has the sort, and is over these symbols.
pub fn is_value(symbols: &Vec<Symbol>, sort: Sort, term: &GroundTerm) -> bool
    ensures { result ≡ next.is_value (map symbol_of symbols.now.items) (sort_of sort) (ground_of term.now) }
{
    has_sort(sort, term) && is_over(symbols, term)
}

/// Whether each value has its variable's sort, and is over these symbols.
pub fn are_values(symbols: &Vec<Symbol>, values: &Values) -> bool
    ensures { result ≡ next.are_values (map symbol_of symbols.now.items) (bounds values.now) }
{
    for bound in &values.bindings {
        if !is_value(symbols, bound.variable.sort, &bound.term) {
            return false;
        }
    }
    true
}
