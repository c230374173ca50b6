// Instances: terms and facts with the values of their variables put in.

ghost use Rattle.std.specs.Prelude.{◌≡◌, IfOk};
ghost use Rattle.sp_spec.specs.Term as spec;
ghost use Rattle.sp_spec.specs.Term.{valued};
ghost use Rattle.sp_spec.specs.Rule.{facts_at};
ghost use Rattle.sp_law_equal.specs.Matching.{any_of, value_in};
ghost use Rattle.sp_term.specs.View.{sort_of, variable_of, never_of, view};
ghost use Rattle.sp_fact.specs.View.{facts_of};
ghost use Rattle.sp_fact.specs.GroundView.{ground_facts, ground_of};
ghost use Rattle.sp_norm.specs.Bounds.{bounds};

use sp_fact::fact::Facts;
use sp_fact::ground_fact::GroundFacts;
use sp_fact::ground_term::GroundTerm;
use sp_term::apply::{Assigns, apply};
use sp_term::subst::Values;
use sp_term::term::{Name, Never, Sort, Term, Variable};
use std::alloc::{AllocError, Global};

// What stands for a variable without a value.
fn any(alloc: Global, sort: Sort) -> Result<GroundTerm, AllocError>
    ensures { IfOk result (λ t. ground_of t ≡ any_of (sort_of sort)) }
{
    match sort {
        Sort::Fresh => Ok(Term::FreshName(0)),
        _ => {
            let empty = Name::new(alloc, "")?;
            Ok(Term::Constant(empty))
        }
    }
}

/// The value of a variable; one without a binding has some value of its sort.
pub fn variable_value(
    alloc: Global,
    values: &Values,
    variable: Variable,
) -> Result<GroundTerm, AllocError>
    ensures { IfOk result (λ t. ground_of t ≡ value_in (bounds values.now) (variable_of variable)) }
{
    match values.get(variable) {
        Some(value) => value.clone(),
        None => any(alloc, variable.sort),
    }
}

/// Values, as they are put for variables.
#[derive(Clone, Copy)]
pub struct Valuing<'a> {
    /// the values
    pub values: &'a Values,
}

impl<'a> Assigns<Variable, Never> for Valuing<'a> {
    ghost From = { spec.Variable };

    ghost To = { ⊥ };

    ghost from_of = { variable_of };

    ghost to_of = { never_of };

    ghost value_of = { λ s. value_in (bounds s.values.now) };

    fn value(&self, alloc: Global, leaf: &Variable) -> Result<GroundTerm, AllocError> {
        variable_value(alloc, self.values, *leaf)
    }
}

/// The term with each variable replaced by its value.
pub fn value(alloc: Global, values: &Values, term: &Term) -> Result<GroundTerm, AllocError>
    ensures { IfOk result (λ t. ground_of t ≡ valued (value_in (bounds values.now)) (view term.now)) }
{
    apply(alloc, &Valuing { values }, term)
}

/// The facts with each variable replaced by its value.
pub fn facts_value(alloc: Global, values: &Values, facts: &Facts) -> Result<GroundFacts, AllocError>
    ensures { IfOk result (λ f. ground_facts f ≡ facts_at (value_in (bounds values.now)) (facts_of facts.now)) }
{
    facts.changed(alloc, &Valuing { values })
}
