// The findings on the variables of a formula.

ghost use Rattle.std.specs.Prelude.{◌≡◌, ◌&&◌, [], not, IfOk, OnOk, map};
ghost use Rattle.sp_fact.specs.GroundView.{equation_of};
ghost use Rattle.sp_read_parts.specs.Formulas as written;
ghost use Rattle.sp_law_guard.specs.GuardedForm as forms;
ghost use Rattle.sp_law_guard.specs.CheckedForm as checked;
ghost use Rattle.sp_guard.specs.View.{innermost_first};
ghost use Rattle.sp_guard.specs.FirstNamed.{name_of};
ghost use Rattle.sp_finding.specs.Finding.{lines_after};
ghost use Rattle.sp_lines.specs.TextsView.{texts_of};
ghost use Rattle.sp_wf_formulas.specs.FormulaFindings as spec;
ghost use Rattle.sp_wf_formulas.specs.Sought.{sought, sought_view, is_there};
ghost use Rattle.sp_wf_formulas.specs.Statements.{statement};

use crate::destructors::formula_has_destructor;
use crate::uses::{Search, Sought};
use sp_fact::signature::Equation;
use sp_finding::{Finding, FormulaFinding, tell_if};
use sp_guard::form::guarded_form;
use sp_guard::marks::marks_fit;
use sp_guard::unguarded::first_unguarded;
use sp_lines::Texts;
use sp_read_parts::{ReadFormula, WrittenVariable};
use sp_walk::collect_closed;
use std::alloc::{AllocError, Global};

/// Tells of what is looked for, in the formula of this name.
///
/// # Errors
///
/// `AllocError` where memory is wanting.
pub fn tell_sought<'a>(
    alloc: Global,
    lines: &mut Texts,
    wanted: Sought,
    name: &'a str,
    formula: &ReadFormula<'a>,
) -> Result<(), AllocError>
    ensures { OnOk result (texts_of lines.new ≡ lines_after (texts_of lines.old) (sought (sought_view wanted) name.now (spec.uses [] (written.formula formula.now)))) }
{
    let search = Search {
        sought: wanted,
        formula: name,
    };
    collect_closed(alloc, &search, lines, formula)
}

/// Whether the formula has a guarded form within the reach of these binders.
#[tactic(auto, using(crate::proofs::FormulaClean::some_there))]
fn has_form<'a>(
    alloc: Global,
    binders: &Vec<WrittenVariable<'a>>,
    formula: &ReadFormula<'a>,
) -> Result<bool, AllocError>
    ensures { IfOk result (λ b. b ≡ is_there (forms.guarded_form (innermost_first binders.now.items) (written.formula formula.now))) }
{
    let form = guarded_form(alloc, binders, formula)?;
    Ok(form.is_some())
}

/// Whether each variable has a binder, and is marked and used as that is.
fn is_used_rightly(alloc: Global, formula: &ReadFormula) -> Result<bool, AllocError>
    ensures { IfOk result (λ b. b ≡ (is_there (forms.guarded_form [] (written.formula formula.now)) && checked.marks_fit [] (written.formula formula.now))) }
{
    let none = Vec::new(alloc);
    let has_form = has_form(alloc, &none, formula)?;
    let fit = marks_fit(alloc, &none, formula)?;
    Ok(has_form && fit)
}

/// Tells of a variable that isn't guarded.
fn tell_name<'a>(
    alloc: Global,
    lines: &mut Texts,
    formula: &'a str,
    name: Option<&'a str>,
) -> Result<(), AllocError>
    ensures { OnOk result (texts_of lines.new ≡ lines_after (texts_of lines.old) (spec.unguarded_at formula.now (name_of name.entry))) }
{
    match name {
        Some(name) => {
            let finding = Finding::OnFormula(formula, FormulaFinding::NotGuarded(name));
            tell_if(alloc, lines, true, finding)
        }
        None => Ok(()),
    }
}

/// Whether an unguarded variable is looked for: no destructor stands in the formula, and its variables are used rightly.
fn is_searched(
    alloc: Global,
    equations: &Vec<Equation>,
    formula: &ReadFormula,
) -> Result<bool, AllocError>
    ensures { IfOk result (λ b. b ≡ (not (spec.formula_has_destructor (map equation_of equations.now.items) (written.formula formula.now))
        && (is_there (forms.guarded_form [] (written.formula formula.now)) && checked.marks_fit [] (written.formula formula.now)))) }
{
    let has_destructor = formula_has_destructor(equations, formula);
    let is_right = is_used_rightly(alloc, formula)?;
    Ok(!has_destructor && is_right)
}

/// Tells of the first variable of the formula of this name that isn't guarded, where one is looked for.
///
/// # Errors
///
/// `AllocError` where memory is wanting.
#[tactic(auto, using(crate::proofs::Formulas::unguarded_told))]
pub fn tell_unguarded<'a>(
    alloc: Global,
    lines: &mut Texts,
    equations: &Vec<Equation>,
    name: &'a str,
    formula: &ReadFormula<'a>,
) -> Result<(), AllocError>
    ensures { OnOk result (texts_of lines.new ≡ lines_after (texts_of lines.old) (spec.unguarded_in_lemma (map equation_of equations.now.items) (statement name.now (written.formula formula.now)))) }
{
    let is_searched = is_searched(alloc, equations, formula)?;
    if !is_searched {
        return Ok(());
    }
    let unguarded = first_unguarded(alloc, formula)?;
    tell_name(alloc, lines, name, unguarded)?;
    Ok(())
}
