// The block of an execution or a log that was found.

ghost use Rattle.std.specs.Prelude.{◌≡◌, ◌++◌, IfOk, OnOk, Some, map, option_map, string_bytes};
ghost use Rattle.sp_fact.specs.GroundView.{step_of};
ghost use Rattle.sp_learn.specs.View.{log_of};
ghost use Rattle.sp_spec.specs.Lists.{Every};
ghost use Rattle.sp_show.specs.Numbers.{StepHasNames, numbered_names};
ghost use Rattle.sp_analysis.specs.Found as found;
ghost use Rattle.sp_analysis.specs.Sought.{executed, given};
ghost use Rattle.sp_analysis.specs.View.{setting_in};
ghost use Rattle.sp_law_log_lines.specs.Block as logs;
ghost use Rattle.sp_law_printed_log.specs.Block as spec;

use crate::setting::Setting;
use sp_fact::step::Step;
use sp_learn::log::Log;
use sp_learn::trace::visible_trace;
use sp_show::step::step_line;
use sp_show::trace::trace_block;
use sp_show_log::block::log_block;
use sp_transfer::execution::to_execution;
use std::alloc::{AllocError, Global};

/// Puts each step on a line.
fn write_steps(alloc: Global, out: &mut String, steps: &Vec<Step>) -> Result<(), AllocError>
    ensures text { OnOk result (string_bytes out.new ≡ string_bytes out.old ++ spec.steps_text (map step_of steps.now.items)) }
    ensures numbered { OnOk result (Every (StepHasNames numbered_names) (map step_of steps.now.items)) }
{
    for step in steps {
        let line = step_line(alloc, step)?;
        out.push_str(line.as_str())?;
        out.push_str("\n")?;
    }
    Ok(())
}

/// The block of the execution that the log stands for.
fn found_block(alloc: Global, setting: &Setting, log: &Log) -> Result<String, AllocError>
    ensures text { IfOk result (λ text. string_bytes text ≡ spec.block_by (executed (setting_in setting.now)) (Some (log_of log.now))) }
    ensures numbered { OnOk result (Every (StepHasNames numbered_names) (executed (setting_in setting.now) (log_of log.now))) }
{
    let steps = to_execution(alloc, &setting.signature, &setting.book, log)?;
    let trace = visible_trace(alloc, log)?;
    let mut out = String::from_str(alloc, "execution:\n")?;
    write_steps(alloc, &mut out, &steps)?;
    let block = trace_block(alloc, &trace)?;
    out.push_str(block.as_str())?;
    Ok(out)
}

/// The block of the execution that was found; nothing where none was.
fn execution_block(
    alloc: Global,
    setting: &Setting,
    log: Option<&Log>,
) -> Result<String, AllocError>
    ensures text { IfOk result (λ text. string_bytes text ≡ spec.block_by (executed (setting_in setting.now)) (option_map (λ l. log_of l.now) log.entry)) }
    ensures numbered { OnOk result (spec.IsNumberedBy (executed (setting_in setting.now)) (option_map (λ l. log_of l.now) log.entry)) }
{
    match log {
        Some(log) => found_block(alloc, setting, log),
        None => Ok(String::new(alloc)),
    }
}

/// The block of the log that was found; nothing where none was.
fn learning_block(alloc: Global, setting: &Setting, log: Option<&Log>) -> Result<String, AllocError>
    ensures text { IfOk result (λ text. string_bytes text ≡ logs.log_block_by (given (setting_in setting.now)) (option_map (λ l. log_of l.now) log.entry)) }
    ensures numbered { OnOk result (logs.AreNumberedBy (given (setting_in setting.now)) (option_map (λ l. log_of l.now) log.entry)) }
{
    match log {
        Some(log) => log_block(alloc, &setting.signature, &setting.book, log),
        None => Ok(String::new(alloc)),
    }
}

/// The block of what was found: the log itself for a lemma that is read over learning logs, the execution that it stands for else; nothing where none was.
///
/// # Errors
///
/// `AllocError` where memory is wanting.
pub fn block_of(
    alloc: Global,
    setting: &Setting,
    marked: bool,
    log: Option<&Log>,
) -> Result<String, AllocError>
    ensures text { IfOk result (λ text. string_bytes text ≡ found.block_by (executed (setting_in setting.now)) (given (setting_in setting.now)) marked (option_map (λ l. log_of l.now) log.entry)) }
    ensures numbered { OnOk result (found.IsNumberedBy (executed (setting_in setting.now)) (given (setting_in setting.now)) marked (option_map (λ l. log_of l.now) log.entry)) }
{
    if marked {
        learning_block(alloc, setting, log)
    } else {
        execution_block(alloc, setting, log)
    }
}
