// The fatal findings on a theory, as lines.

ghost use Rattle.std.specs.Prelude.{◌≡◌, ◌++◌, [], IfOk, OnOk, map};
ghost use Rattle.sp_fact.specs.GroundView.{equation_of, symbol_of};
ghost use Rattle.sp_spec_text.specs.Declared.{their_equations};
ghost use Rattle.sp_written.specs.Views as view;
ghost use Rattle.sp_declared.specs.NumberedView.{numbered_of};
ghost use Rattle.sp_finding.specs.Finding.{lines_after};
ghost use Rattle.sp_finding.specs.View.{lines_of};
ghost use Rattle.sp_lines.specs.TextsView.{texts_of};
ghost use Rattle.sp_wf_symbols.specs.EquationFindings.{findings_on_equations};
ghost use Rattle.sp_wf_rules.specs.BindingView.{names_of};
ghost use Rattle.sp_wf_formulas.specs.Statements.{statements_in};
ghost use Rattle.sp_wf.specs.ItemFindings.{findings_on_rules, findings_on_lemmas};
ghost use Rattle.sp_wf.specs.Report as spec;
ghost use Rattle.sp_wf.specs.Told.{findings_on_named};

use crate::attributes::{tell_all_attributes, tell_all_learning};
use crate::names::tell_names;
use crate::told::{
    BindingFault, FormulaFault, RuleFault, tell_arities, tell_bound, tell_rules, tell_statements,
};
use crate::unknown::tell_all_unknown;
use sp_declared::equations::NumberedEquation;
use sp_fact::signature::{Equation, Symbol};
use sp_lines::Texts;
use sp_wf_rules::BoundNames;
use sp_wf_symbols::{tell_declared, tell_equations, tell_left_out, without_numbers};
use sp_written::{Item, ReadTheory};
use std::alloc::{AllocError, Global};

/// Tells of what is wrong with rules alone, given what the items bind.
#[tactic(auto, using(sp_finding::proofs::Telling::told_six))]
fn tell_all_rules(
    alloc: Global,
    lines: &mut Texts,
    equations: &Vec<Equation>,
    bound: &Vec<BoundNames>,
    items: &Vec<Item>,
) -> Result<(), AllocError>
    ensures { OnOk result (texts_of lines.new ≡ lines_after (texts_of lines.old) (findings_on_rules (map equation_of equations.now.items) (map names_of bound.now.items) (view.items items.now.items))) }
{
    tell_bound(alloc, lines, BindingFault::Twice, bound, items)?;
    tell_bound(alloc, lines, BindingFault::Marks, bound, items)?;
    tell_rules(alloc, lines, RuleFault::Reserved, items)?;
    tell_rules(alloc, lines, RuleFault::Arguments, items)?;
    tell_rules(alloc, lines, RuleFault::Destructor(equations), items)?;
    tell_rules(alloc, lines, RuleFault::Unbound, items)?;
    Ok(())
}

/// Tells of what is wrong with the formulas of restrictions and lemmas.
#[tactic(auto, using(sp_finding::proofs::Telling::told_five))]
fn tell_all_formulas(
    alloc: Global,
    lines: &mut Texts,
    equations: &Vec<Equation>,
    items: &Vec<Item>,
) -> Result<(), AllocError>
    ensures { OnOk result (texts_of lines.new ≡ lines_after (texts_of lines.old) (findings_on_lemmas (map equation_of equations.now.items) (statements_in (view.items items.now.items)))) }
{
    tell_statements(alloc, lines, FormulaFault::Unbound, items)?;
    tell_statements(alloc, lines, FormulaFault::Unguarded(equations), items)?;
    tell_statements(alloc, lines, FormulaFault::Destructor(equations), items)?;
    tell_statements(alloc, lines, FormulaFault::OtherSort, items)?;
    tell_statements(alloc, lines, FormulaFault::Mixed, items)?;
    Ok(())
}

/// Tells of what is wrong with restrictions and lemmas.
#[tactic(auto, using(sp_finding::proofs::Telling::told_three))]
fn tell_all_statements(
    alloc: Global,
    lines: &mut Texts,
    equations: &Vec<Equation>,
    items: &Vec<Item>,
) -> Result<(), AllocError>
    ensures { OnOk result (texts_of lines.new ≡ lines_after (texts_of lines.old) (spec.findings_on_statements (map equation_of equations.now.items) (view.items items.now.items))) }
{
    tell_all_formulas(alloc, lines, equations, items)?;
    tell_all_learning(alloc, lines, items)?;
    tell_all_attributes(alloc, lines, items)
}

/// Tells of what is wrong with builtins and symbols.
#[tactic(auto, using(sp_finding::proofs::Telling::told_three))]
fn tell_symbols(
    alloc: Global,
    lines: &mut Texts,
    symbols: &Vec<Symbol>,
    items: &Vec<Item>,
) -> Result<(), AllocError>
    ensures { OnOk result (texts_of lines.new ≡ lines_after (texts_of lines.old) (spec.findings_on_symbols (map symbol_of symbols.now.items) (view.items items.now.items))) }
{
    tell_left_out(alloc, lines, items)?;
    tell_declared(alloc, lines, symbols, items)?;
    tell_all_unknown(alloc, lines, symbols, items)
}

/// Tells of what is wrong with rules, restrictions and lemmas, of their names first.
#[tactic(auto, using(sp_finding::proofs::Telling::told_three))]
fn tell_items(
    alloc: Global,
    lines: &mut Texts,
    equations: &Vec<Equation>,
    bound: &Vec<BoundNames>,
    items: &Vec<Item>,
) -> Result<(), AllocError>
    ensures { OnOk result (texts_of lines.new ≡ lines_after (texts_of lines.old) (findings_on_named (map equation_of equations.now.items) (map names_of bound.now.items) (view.items items.now.items))) }
{
    tell_names(alloc, lines, items)?;
    tell_all_rules(alloc, lines, equations, bound, items)?;
    tell_all_statements(alloc, lines, equations, items)
}

/// Tells of what is wrong with equations, given without their numbers and with them, and then with rules, restrictions and lemmas.
#[tactic(auto, using(sp_finding::proofs::Telling::one_behind))]
fn tell_equations_and_items(
    alloc: Global,
    lines: &mut Texts,
    symbols: &Vec<Symbol>,
    plain: &Vec<Equation>,
    equations: &Vec<NumberedEquation>,
    bound: &Vec<BoundNames>,
    items: &Vec<Item>,
) -> Result<(), AllocError>
    requires { map equation_of plain.now.items ≡ their_equations (map numbered_of equations.now.items) }
    ensures { OnOk result (texts_of lines.new ≡ lines_after (texts_of lines.old) (findings_on_equations (map symbol_of symbols.now.items) (map numbered_of equations.now.items) ++ findings_on_named (their_equations (map numbered_of equations.now.items)) (map names_of bound.now.items) (view.items items.now.items))) }
{
    tell_equations(alloc, lines, symbols, plain, equations)?;
    tell_items(alloc, lines, plain, bound, items)
}

/// Tells of what is wrong with a theory that declares these symbols and equations; the equations are given without their numbers and with them.
#[tactic(auto, using(sp_finding::proofs::Telling::told_three))]
fn tell_all(
    alloc: Global,
    lines: &mut Texts,
    symbols: &Vec<Symbol>,
    plain: &Vec<Equation>,
    equations: &Vec<NumberedEquation>,
    bound: &Vec<BoundNames>,
    theory: &ReadTheory,
) -> Result<(), AllocError>
    requires { map equation_of plain.now.items ≡ their_equations (map numbered_of equations.now.items) }
    ensures { OnOk result (texts_of lines.new ≡ lines_after (texts_of lines.old) (spec.findings_by (map symbol_of symbols.now.items) (map numbered_of equations.now.items) (map names_of bound.now.items) (view.theory theory.now))) }
{
    tell_symbols(alloc, lines, symbols, &theory.items)?;
    tell_arities(alloc, lines, &theory.items)?;
    tell_equations_and_items(
        alloc,
        lines,
        symbols,
        plain,
        equations,
        bound,
        &theory.items,
    )
}

/// The lines of the fatal findings on a theory that declares these symbols and equations, and in which values stand for the names that are bound, and
/// symbols for the names that are such, by the kind of finding, and then by the text. `bound` is what its items bind, as `sp_wf_rules::bound_in` says of the
/// text as it is written. There are none exactly where there are no findings, as `report_is_right` says.
///
/// # Errors
///
/// `AllocError` where memory is wanting.
pub fn fatal_lines(
    alloc: Global,
    symbols: &Vec<Symbol>,
    equations: &Vec<NumberedEquation>,
    bound: &Vec<BoundNames>,
    theory: &ReadTheory,
) -> Result<Vec<String>, AllocError>
    ensures { IfOk result (λ ls. lines_of ls.items ≡ lines_after [] (spec.findings_by (map symbol_of symbols.now.items) (map numbered_of equations.now.items) (map names_of bound.now.items) (view.theory theory.now))) }
{
    let plain = without_numbers(alloc, equations)?;
    let mut lines = Texts::new(alloc);
    tell_all(alloc, &mut lines, symbols, &plain, equations, bound, theory)?;
    lines.into_vec(alloc)
}

/// Puts the lines at the end, each with a line feed behind it.
///
/// # Errors
///
/// `AllocError` where memory is wanting.
pub fn write_lines(out: &mut Vec<u8>, lines: &Vec<String>) -> Result<(), AllocError>
    ensures { OnOk result (out.new.items ≡ out.old.items ++ spec.text_of (lines_of lines.now.items)) }
{
    for line in lines {
        out.extend_from_slice(line.as_bytes())?;
        out.extend_from_slice(b"\n")?;
    }
    Ok(())
}
