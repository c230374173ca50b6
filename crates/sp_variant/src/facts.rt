// Narrowing of facts and actions, one after the other.

ghost use Rattle.std.specs.Prelude.{◌≡◌, ◌++◌, IfOk, OnOk, map};
ghost use Rattle.sp_fact.specs.View.{action_of, fact_of, facts_of};
ghost use Rattle.sp_fact.specs.GroundView.{equation_of};
ghost use Rattle.sp_spec_forms.specs.Narrowing as spec;
ghost use Rattle.sp_variant.specs.View.{chosen_of, list_by, way_by};
ghost use Rattle.sp_variant.specs.Rows.{longer, narrow_arguments, with_actions, with_conclusions, with_one_more};

use crate::arguments::HasArguments;
use crate::narrowing::{Chosen, Way, empty, narrow_all};
use sp_fact::fact::{Action, Fact, Facts};
use sp_fact::signature::Equation;
use std::alloc::{AllocError, Global};

/// Equal ones.
fn copies<T: HasArguments>(alloc: Global, all: &Vec<T>) -> Result<Vec<T>, AllocError>
    ensures { IfOk result (λ xs. list_by T.kind_of xs ≡ list_by T.kind_of all.now) }
{
    let mut made = Vec::with_capacity(alloc, all.len())?;
    for one in all {
        made.push(one.duplicate(alloc)?)?;
    }
    Ok(made)
}

/// All ways to narrow the arguments.
fn narrow_one<T: HasArguments>(
    alloc: Global,
    equations: &Vec<Equation>,
    one: &T,
    chosen: &Chosen,
) -> Result<Vec<Way<T>>, AllocError>
    ensures { IfOk result (λ ws. map (way_by T.kind_of) ws.items
        ≡ narrow_arguments T.args_of T.with_args (map equation_of equations.now.items) (T.kind_of one.now) (chosen_of chosen.now)) }
{
    let mut ways = Vec::new(alloc);
    for row in narrow_all(alloc, one.arguments(), equations, chosen)? {
        let Way { value, chosen } = row;
        let value = one.over(value)?;
        ways.push(Way { value, chosen })?;
    }
    Ok(ways)
}

/// Puts at the end this row with one more, in each of its ways.
fn push_longer<T: HasArguments>(
    alloc: Global,
    rows: &mut Vec<Way<Vec<T>>>,
    before: &Vec<T>,
    found: Vec<Way<T>>,
) -> Result<(), AllocError>
    ensures { OnOk result (map (way_by (list_by T.kind_of)) rows.new.items
        ≡ map (way_by (list_by T.kind_of)) rows.old.items ++ with_one_more (list_by T.kind_of before.now) (map (way_by T.kind_of) found.items)) }
{
    for way in found {
        let Way { value, chosen } = way;
        let mut row = copies(alloc, before)?;
        row.push(value)?;
        rows.push(Way { value: row, chosen })?;
    }
    Ok(())
}

/// The rows, each with this one at its end, in all ways to narrow it.
fn longer<T: HasArguments>(
    alloc: Global,
    equations: &Vec<Equation>,
    one: &T,
    rows: Vec<Way<Vec<T>>>,
) -> Result<Vec<Way<Vec<T>>>, AllocError>
    ensures { IfOk result (λ ws. map (way_by (list_by T.kind_of)) ws.items
        ≡ longer (narrow_arguments T.args_of T.with_args (map equation_of equations.now.items) (T.kind_of one.now)) (map (way_by (list_by T.kind_of)) rows.items)) }
{
    let mut made = Vec::new(alloc);
    for row in &rows {
        let found = narrow_one(alloc, equations, one, &row.chosen)?;
        push_longer(alloc, &mut made, &row.value, found)?;
    }
    Ok(made)
}

/// All ways to narrow them, one after the other.
fn each<T: HasArguments>(
    alloc: Global,
    equations: &Vec<Equation>,
    all: &Vec<T>,
    chosen: &Chosen,
) -> Result<Vec<Way<Vec<T>>>, AllocError>
    ensures { IfOk result (λ ws. map (way_by (list_by T.kind_of)) ws.items
        ≡ spec.each (narrow_arguments T.args_of T.with_args (map equation_of equations.now.items)) (list_by T.kind_of all.now) (chosen_of chosen.now)) }
{
    let mut rows = Vec::new(alloc);
    rows.push(empty(alloc, chosen)?)?;
    for one in all {
        rows = longer(alloc, equations, one, rows)?;
    }
    Ok(rows)
}

/// Puts at the end the facts with these premises, the actions of the row, and the conclusions in all ways to narrow them.
fn push_with_conclusions(
    alloc: Global,
    equations: &Vec<Equation>,
    facts: &Facts,
    premises: &Vec<Fact>,
    row: &Way<Vec<Action>>,
    ways: &mut Vec<Way<Facts>>,
) -> Result<(), AllocError>
    ensures { OnOk result (map (way_by facts_of) ways.new.items
        ≡ map (way_by facts_of) ways.old.items ++ with_conclusions (map equation_of equations.now.items) (facts_of facts.now) (list_by fact_of premises.now) (way_by (list_by action_of) row.now)) }
{
    for way in each(alloc, equations, &facts.conclusions, &row.chosen)? {
        let Way { value, chosen } = way;
        let premises = copies(alloc, premises)?;
        let actions = copies(alloc, &row.value)?;
        let value = Facts {
            premises,
            actions,
            conclusions: value,
        };
        ways.push(Way { value, chosen })?;
    }
    Ok(())
}

/// Puts at the end the facts with the premises of the row, and the actions, then the conclusions, in all ways to narrow them.
fn push_with_actions(
    alloc: Global,
    equations: &Vec<Equation>,
    facts: &Facts,
    row: &Way<Vec<Fact>>,
    ways: &mut Vec<Way<Facts>>,
) -> Result<(), AllocError>
    ensures { OnOk result (map (way_by facts_of) ways.new.items
        ≡ map (way_by facts_of) ways.old.items ++ with_actions (map equation_of equations.now.items) (facts_of facts.now) (way_by (list_by fact_of) row.now)) }
{
    let rows = each(alloc, equations, &facts.actions, &row.chosen)?;
    for actions in &rows {
        push_with_conclusions(alloc, equations, facts, &row.value, actions, ways)?;
    }
    Ok(())
}

/// All ways to narrow the facts: premises, then actions, then conclusions.
///
/// # Errors
///
/// `AllocError` where memory is wanting, or a number of a new variable doesn't fit.
pub fn narrow_facts(
    alloc: Global,
    equations: &Vec<Equation>,
    facts: &Facts,
    chosen: &Chosen,
) -> Result<Vec<Way<Facts>>, AllocError>
    ensures { IfOk result (λ ws. map (way_by facts_of) ws.items
        ≡ spec.narrow_facts (map equation_of equations.now.items) (facts_of facts.now) (chosen_of chosen.now)) }
{
    let mut ways = Vec::new(alloc);
    let rows = each(alloc, equations, &facts.premises, chosen)?;
    for premises in &rows {
        push_with_actions(alloc, equations, facts, premises, &mut ways)?;
    }
    Ok(ways)
}
