// The findings on equations.

ghost use Rattle.std.specs.Prelude.{◌≡◌, ◌&&◌, not, IfOk, OnOk, map};
ghost use Rattle.sp_fact.specs.GroundView.{equation_of, symbol_of};
ghost use Rattle.sp_spec_text.specs.Declared.{their_equations};
ghost use Rattle.sp_conv.specs.Tests.{is_well_formed, has_private_constant};
ghost use Rattle.sp_written.specs.Views as view;
ghost use Rattle.sp_declared.specs.NumberedView.{numbered_of};
ghost use Rattle.sp_finding.specs.Finding.{are_none, lines_after};
ghost use Rattle.sp_finding.specs.KnownView.{symbols_of};
ghost use Rattle.sp_lines.specs.TextsView.{texts_of};
ghost use Rattle.sp_wf_symbols.specs.EquationFindings as spec;
ghost use Rattle.sp_wf_symbols.specs.SymbolFindings.{unknown_in_equations};
ghost use Rattle.sp_wf_symbols.specs.Told.{is_formed, clashes_if_formed};

use sp_conv::clash::clash;
use sp_conv::form::{Form, form_of};
use sp_declared::equations::NumberedEquation;
use sp_fact::signature::{Equation, Symbol};
use sp_finding::{Finding, KnownSymbols, tell_if, tell_unknown};
use sp_lines::Texts;
use sp_written::WrittenEquation;
use std::alloc::{AllocError, Global};

/// The equations without their numbers.
///
/// # Errors
///
/// `AllocError` where memory is wanting.
pub fn without_numbers(
    alloc: Global,
    equations: &Vec<NumberedEquation>,
) -> Result<Vec<Equation>, AllocError>
    ensures { IfOk result (λ es. map equation_of es.items ≡ their_equations (map numbered_of equations.now.items)) }
{
    let mut made = Vec::new(alloc);
    for numbered in equations {
        let left = numbered.equation.left.clone()?;
        let right = numbered.equation.right.clone()?;
        made.push(Equation { left, right })?;
    }
    Ok(made)
}

// ---- as they are written

/// Tells of each symbol of the equations that isn't one of these.
///
/// # Errors
///
/// `AllocError` where memory is wanting.
pub fn tell_unknown_in_equations(
    alloc: Global,
    lines: &mut Texts,
    symbols: &KnownSymbols,
    equations: &Vec<WrittenEquation>,
) -> Result<(), AllocError>
    ensures { OnOk result (texts_of lines.new ≡ lines_after (texts_of lines.old) (unknown_in_equations (symbols_of symbols.now) (map view.equation equations.now.items))) }
{
    for equation in equations {
        tell_unknown(alloc, lines, symbols, &equation.left)?;
        tell_unknown(alloc, lines, symbols, &equation.right)?;
    }
    Ok(())
}

// ---- each by itself

/// Whether the equation, one of these, isn't of the form that is asked for, and it isn't only a private constant that is wrong with it.
fn has_wrong_shape(symbols: &Vec<Symbol>, equations: &Vec<Equation>, equation: &Equation) -> bool
    ensures { result ≡ (not (is_well_formed (map symbol_of symbols.now.items) (map equation_of equations.now.items) (equation_of equation.now)) && not (has_private_constant (map symbol_of symbols.now.items) (map equation_of equations.now.items) (equation_of equation.now))) }
{
    match form_of(symbols, equations, equation) {
        Form::WellFormed => false,
        Form::PrivateConstant => false,
        Form::WrongShape => true,
    }
}

/// Whether only that its right side is a constant that is private is wrong with the equation, one of these.
fn has_private_constant(
    symbols: &Vec<Symbol>,
    equations: &Vec<Equation>,
    equation: &Equation,
) -> bool
    ensures { result ≡ has_private_constant (map symbol_of symbols.now.items) (map equation_of equations.now.items) (equation_of equation.now) }
{
    match form_of(symbols, equations, equation) {
        Form::WellFormed => false,
        Form::PrivateConstant => true,
        Form::WrongShape => false,
    }
}

/// Tells of each of the equations that isn't of the form that is asked for.
#[tactic(auto, using(sp_finding::proofs::Telling::told_on))]
fn tell_shapes(
    alloc: Global,
    lines: &mut Texts,
    symbols: &Vec<Symbol>,
    equations: &Vec<Equation>,
    numbered: &Vec<NumberedEquation>,
) -> Result<(), AllocError>
    ensures { OnOk result (texts_of lines.new ≡ lines_after (texts_of lines.old) (spec.shapes (map symbol_of symbols.now.items) (map equation_of equations.now.items) (map numbered_of numbered.now.items))) }
{
    for one in numbered {
        let is_wrong = has_wrong_shape(symbols, equations, &one.equation);
        tell_if(alloc, lines, is_wrong, Finding::WrongShape(one.number))?;
    }
    Ok(())
}

/// Tells of each of the equations whose right side is a constant that is private.
#[tactic(auto, using(sp_finding::proofs::Telling::told_on))]
fn tell_private_constants(
    alloc: Global,
    lines: &mut Texts,
    symbols: &Vec<Symbol>,
    equations: &Vec<Equation>,
    numbered: &Vec<NumberedEquation>,
) -> Result<(), AllocError>
    ensures { OnOk result (texts_of lines.new ≡ lines_after (texts_of lines.old) (spec.private_constants (map symbol_of symbols.now.items) (map equation_of equations.now.items) (map numbered_of numbered.now.items))) }
{
    for one in numbered {
        let is_wrong = has_private_constant(symbols, equations, &one.equation);
        tell_if(alloc, lines, is_wrong, Finding::PrivateConstant(one.number))?;
    }
    Ok(())
}

/// Whether neither is to be told of the equation, one of these.
fn is_formed(symbols: &Vec<Symbol>, equations: &Vec<Equation>, equation: &Equation) -> bool
    ensures { result ≡ is_formed (map symbol_of symbols.now.items) (map equation_of equations.now.items) (equation_of equation.now) }
{
    !has_wrong_shape(symbols, equations, equation)
        && !has_private_constant(symbols, equations, equation)
}

/// Whether neither is to be told of any of the equations.
fn are_formed(
    symbols: &Vec<Symbol>,
    equations: &Vec<Equation>,
    numbered: &Vec<NumberedEquation>,
) -> bool
    ensures { result ≡ (are_none (spec.shapes (map symbol_of symbols.now.items) (map equation_of equations.now.items) (map numbered_of numbered.now.items)) && are_none (spec.private_constants (map symbol_of symbols.now.items) (map equation_of equations.now.items) (map numbered_of numbered.now.items))) }
{
    for one in numbered {
        if !is_formed(symbols, equations, &one.equation) {
            return false;
        }
    }
    true
}

// ---- one with another

/// Whether the equations clash.
fn do_clash(alloc: Global, first: &Equation, second: &Equation) -> Result<bool, AllocError>
    ensures { IfOk result (λ b. b ≡ spec.do_clash (equation_of first.now) (equation_of second.now)) }
{
    let found = clash(alloc, first, second)?;
    let stands = found.is_some();
    Ok(stands)
}

/// Tells of each of the others that clashes with the first.
#[tactic(auto, using(sp_finding::proofs::Telling::told_on))]
fn tell_clashes_with(
    alloc: Global,
    lines: &mut Texts,
    first: &NumberedEquation,
    others: &[NumberedEquation],
) -> Result<(), AllocError>
    ensures { OnOk result (texts_of lines.new ≡ lines_after (texts_of lines.old) (spec.clashes_with (numbered_of first.now) (map numbered_of others.now))) }
{
    for other in others {
        let is_wrong = do_clash(alloc, &first.equation, &other.equation)?;
        let finding = Finding::Clash(first.number, other.number);
        tell_if(alloc, lines, is_wrong, finding)?;
    }
    Ok(())
}

/// Tells of each two of the equations that clash.
fn tell_clashes(
    alloc: Global,
    lines: &mut Texts,
    numbered: &Vec<NumberedEquation>,
) -> Result<(), AllocError>
    ensures { OnOk result (texts_of lines.new ≡ lines_after (texts_of lines.old) (spec.clashes (map numbered_of numbered.now.items))) }
{
    for (place, first) in numbered.iter().enumerate() {
        tell_clashes_with(alloc, lines, first, &numbered[place + 1..])?;
    }
    Ok(())
}

/// The same, where each equation is as it should be by itself.
fn tell_clashes_if_formed(
    alloc: Global,
    lines: &mut Texts,
    symbols: &Vec<Symbol>,
    equations: &Vec<Equation>,
    numbered: &Vec<NumberedEquation>,
) -> Result<(), AllocError>
    ensures { OnOk result (texts_of lines.new ≡ lines_after (texts_of lines.old) (clashes_if_formed (map symbol_of symbols.now.items) (map equation_of equations.now.items) (map numbered_of numbered.now.items))) }
{
    if are_formed(symbols, equations, numbered) {
        tell_clashes(alloc, lines, numbered)
    } else {
        Ok(())
    }
}

/// Tells of what is wrong with the equations of a theory that has these symbols; they are given with their numbers and without.
///
/// # Errors
///
/// `AllocError` where memory is wanting.
#[tactic(auto, using(sp_finding::proofs::Telling::told_three))]
pub fn tell_equations(
    alloc: Global,
    lines: &mut Texts,
    symbols: &Vec<Symbol>,
    equations: &Vec<Equation>,
    numbered: &Vec<NumberedEquation>,
) -> Result<(), AllocError>
    requires { map equation_of equations.now.items ≡ their_equations (map numbered_of numbered.now.items) }
    ensures { OnOk result (texts_of lines.new ≡ lines_after (texts_of lines.old) (spec.findings_on_equations (map symbol_of symbols.now.items) (map numbered_of numbered.now.items))) }
{
    tell_shapes(alloc, lines, symbols, equations, numbered)?;
    tell_private_constants(alloc, lines, symbols, equations, numbered)?;
    tell_clashes_if_formed(alloc, lines, symbols, equations, numbered)
}
