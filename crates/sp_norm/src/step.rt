// Steps with their terms in normal form.

ghost use Rattle.std.specs.Prelude.{◌≡◌, IfOk, map};
ghost use Rattle.sp_fact.specs.GroundView.{equation_of, given_of, step_of};
ghost use Rattle.sp_law_run.specs.NormalStep.{normal_given, normal_step};

use crate::normal::{normal, normal_all};
use sp_fact::signature::Equation;
use sp_fact::step::{Given, Step};
use std::alloc::{AllocError, Global};

fn each_normal_given(
    alloc: Global,
    equations: &Vec<Equation>,
    given: &Vec<Given>,
) -> Result<Vec<Given>, AllocError>
    ensures { IfOk result (λ gs. map given_of gs.items ≡ normal_given (map equation_of equations.now.items) (map given_of given.now.items)) }
{
    let mut made = Vec::with_capacity(alloc, given.len())?;
    for one in given {
        let variable = one.variable.clone()?;
        let value = normal(alloc, equations, &one.value)?;
        made.push(Given { variable, value })?;
    }
    Ok(made)
}

/// The step with each of its terms in normal form.
pub fn normal_step(
    alloc: Global,
    equations: &Vec<Equation>,
    step: &Step,
) -> Result<Step, AllocError>
    ensures { IfOk result (λ s. step_of s ≡ normal_step (map equation_of equations.now.items) (step_of step.now)) }
{
    match step {
        Step::MakeFresh(term) => Ok(Step::MakeFresh(normal(alloc, equations, term)?)),
        Step::UseRule(rule, given) => {
            let name = rule.clone()?;
            let made = each_normal_given(alloc, equations, given)?;
            Ok(Step::UseRule(name, made))
        }
        Step::TakeOut(term) => Ok(Step::TakeOut(normal(alloc, equations, term)?)),
        Step::PutIn(term) => Ok(Step::PutIn(normal(alloc, equations, term)?)),
        Step::KnowPublic(term) => Ok(Step::KnowPublic(normal(alloc, equations, term)?)),
        Step::MakeOwn(term) => Ok(Step::MakeOwn(normal(alloc, equations, term)?)),
        Step::ApplySymbol(symbol, terms) => {
            let name = symbol.clone()?;
            let made = normal_all(alloc, equations, terms)?;
            Ok(Step::ApplySymbol(name, made))
        }
    }
}
