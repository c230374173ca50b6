// What a text says, with what its names stand for, and what is wrong with it.

ghost use Rattle.std.specs.Prelude.{◌≡◌, ◌++◌, IfOk, MatchResult};
ghost use Rattle.sp_place.specs.Refused.{IsRefusedAt};
ghost use Rattle.sp_wf.specs.Report.{text_of};
ghost use Rattle.sp_finding.specs.View.{lines_of};
ghost use Rattle.sp_pose.specs.Examined.{IsExamined};

use sp_declared::equations::{NumberedEquation, equations};
use sp_declared::symbols::symbols;
use sp_fact::signature::Symbol;
use sp_place::refused_at;
use sp_read_theory::read_theory;
use sp_resolved::resolved;
use sp_wf::{fatal_lines, write_lines};
use sp_wf_rules::bound_in;
use sp_written::ReadTheory;
use std::alloc::{AllocError, Global};

/// A theory that a text says.
#[derive(Drop)]
pub struct SaidTheory<'a> {
    /// its symbols, those of pairs first
    pub symbols: Vec<Symbol>,
    /// its equations, those of pairs first, with their numbers
    pub equations: Vec<NumberedEquation>,
    /// the theory, in which values stand for the names that are bound, and symbols for the names that are such
    pub theory: ReadTheory<'a>,
    /// a line for each fatal finding
    pub fatal: Vec<String>,
}

/// What the text says; where it says no theory, the place at which it is refused.
///
/// # Errors
///
/// `AllocError` where memory is wanting.
pub fn examined<'a>(
    alloc: Global,
    text: &'a [u8],
) -> Result<Result<SaidTheory<'a>, usize>, AllocError>
    ensures { IfOk result (λ r. MatchResult r (IsExamined text.now) (IsRefusedAt text.now)) }
{
    let Some(read) = read_theory(alloc, text)? else {
        let Some(place) = refused_at(alloc, text)? else {
            unreachable!()
        };
        return Ok(Err(place));
    };
    let bound = bound_in(alloc, &read.items)?;
    let symbols = symbols(alloc, &read.items)?;
    let theory = resolved(alloc, &symbols, read)?;
    let equations = equations(alloc, &theory.items)?;
    let fatal = fatal_lines(alloc, &symbols, &equations, &bound, &theory)?;
    Ok(Ok(SaidTheory {
        symbols,
        equations,
        theory,
        fatal,
    }))
}

/// The report on what the text says: a line for each fatal finding, and then one for each of these warnings.
///
/// # Errors
///
/// `AllocError` where memory is wanting.
#[tactic(auto, using(crate::proofs::Posed::joined))]
pub fn report(
    alloc: Global,
    fatal: &Vec<String>,
    warnings: &Vec<String>,
) -> Result<Vec<u8>, AllocError>
    ensures { IfOk result (λ text. text.items ≡ text_of (lines_of fatal.now.items ++ lines_of warnings.now.items)) }
{
    let mut text = Vec::new(alloc);
    write_lines(&mut text, fatal)?;
    write_lines(&mut text, warnings)?;
    Ok(text)
}
