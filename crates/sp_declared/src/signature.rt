// The signature of a theory: its symbols and its equations.

ghost use Rattle.std.specs.Prelude.{◌≡◌, IfOk, map};
ghost use Rattle.sp_fact.specs.GroundView.{symbol_of, equation_of, signature_of};
ghost use Rattle.sp_spec_text.specs.Declared.{their_equations};
ghost use Rattle.sp_declared.specs.NumberedView.{numbered_of};

use crate::equations::NumberedEquation;
use sp_fact::signature::{Equation, Signature, Symbol};
use std::alloc::{AllocError, Global};

/// The equations without their numbers.
fn without_numbers(
    alloc: Global,
    equations: Vec<NumberedEquation>,
) -> Result<Vec<Equation>, AllocError>
    ensures { IfOk result (λ es. map equation_of es.items ≡ their_equations (map numbered_of equations.items)) }
{
    let mut made = Vec::with_capacity(alloc, equations.len())?;
    for numbered in equations {
        made.push(numbered.equation)?;
    }
    Ok(made)
}

/// The signature of these symbols and equations. Where they are all of a theory it is that theory's.
///
/// # Errors
///
/// `AllocError` where memory is wanting.
pub fn signature(
    alloc: Global,
    symbols: Vec<Symbol>,
    equations: Vec<NumberedEquation>,
) -> Result<Signature, AllocError>
    ensures { IfOk result (λ s. signature_of s ≡ record { symbols = map symbol_of symbols.items; equations = their_equations (map numbered_of equations.items) }) }
{
    let equations = without_numbers(alloc, equations)?;
    Ok(Signature { symbols, equations })
}
