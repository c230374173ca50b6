// The lines of a text, one after the other.

ghost use Rattle.std.specs.Prelude.{◌≡◌, [], ◌∷◌, ◌++◌, IfOk, OnOk, map};
ghost use Rattle.sp_fact.specs.GroundView.{symbol_of, step_of};
ghost use Rattle.sp_spec_text.specs.Blanks.{lines};
ghost use Rattle.sp_spec_printed.specs.StepLines.{HaveNames};
ghost use Rattle.sp_read_steps.specs.View.{Takes, AreStepLines};

use crate::parts::StepLines;
use crate::steps::step_of_line;
use crate::texts::{cut, is_nothing, trimmed};
use sp_fact::signature::Symbol;
use sp_fact::step::Step;
use std::alloc::{AllocError, Global};

/// Puts a step at the end.
fn push(steps: &mut Vec<Step>, next: Step) -> Result<(), AllocError>
    ensures { OnOk result (map step_of steps.new.items ≡ map step_of steps.old.items ++ step_of next ∷ []) }
{
    steps.push(next)?;
    Ok(())
}

/// Puts the step of a line at the end, where the line isn't blank; whether it is blank or a step's.
fn take_line(
    alloc: Global,
    symbols: &Vec<Symbol>,
    line: &[u8],
    steps: &mut Vec<Step>,
) -> Result<bool, AllocError>
    ensures { IfOk result (λ taken. Takes (map symbol_of symbols.now.items) line.now (map step_of steps.old.items) (map step_of steps.new.items) taken) }
{
    let text = trimmed(line);
    if is_nothing(text) {
        return Ok(true);
    }
    let Some(step) = step_of_line(alloc, symbols, text)? else {
        return Ok(false);
    };
    push(steps, step)?;
    Ok(true)
}

/// The steps of the lines of a text, or the number of its first line that isn't blank and is no step's.
///
/// A line is a step's where, without the blanks around it, it is the text that the step prints. What the adversary applies may be any
/// name; whether it is a symbol is not asked here.
///
/// # Errors
///
/// There is no memory.
#[tactic(auto, using(crate::proofs::Passed::passed_none))]
pub fn read_steps(
    alloc: Global,
    symbols: &Vec<Symbol>,
    text: &[u8],
) -> Result<StepLines, AllocError>
    requires named { HaveNames (map symbol_of symbols.now.items) }
    ensures { IfOk result (λ r. AreStepLines (map symbol_of symbols.now.items) (lines text.now) r) }
{
    let mut steps = Vec::new(alloc);
    let mut number: usize = 0;
    let mut rest = text;
    loop {
        let (line, behind) = cut(rest);
        number += 1;
        if !take_line(alloc, symbols, line, &mut steps)? {
            return Ok(StepLines::Unread(number));
        }
        match behind {
            Some(more) => rest = more,
            None => return Ok(StepLines::Steps(steps)),
        }
    }
}
