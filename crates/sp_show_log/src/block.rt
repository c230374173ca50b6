// The block of a learning log that was found.

ghost use Rattle.std.specs.Prelude.{◌≡◌, ◌++◌, IfOk, OnOk, map, string_bytes};
ghost use Rattle.sp_spec.specs.Lists.{Every};
ghost use Rattle.sp_fact.specs.GroundView.{equation_of};
ghost use Rattle.sp_book.specs.View.{rule_forms_of};
ghost use Rattle.sp_learn.specs.View.{entry_of, log_of};
ghost use Rattle.sp_show.specs.Numbers.{numbered_names};
ghost use Rattle.sp_spec_log_lines.specs.Line.{line_of};
ghost use Rattle.sp_spec_log_lines.specs.Block as spec;
ghost use Rattle.sp_show_log.specs.Given.{given_among};
ghost use Rattle.sp_show_log.specs.Numbers.{HasNumberedLines, LineHasNames};

use crate::line::log_line;
use sp_book::book::RuleBook;
use sp_book::form::RuleForms;
use sp_fact::signature::{Equation, Signature};
use sp_learn::log::{Entry, Log};
use sp_learn::trace::visible_trace;
use sp_show::trace::trace_block;
use std::alloc::{AllocError, Global};

/// Puts each entry on a line.
fn write_lines(
    alloc: Global,
    out: &mut String,
    equations: &Vec<Equation>,
    rules: &Vec<RuleForms>,
    entries: &Vec<Entry>,
) -> Result<(), AllocError>
    ensures text { OnOk result (string_bytes out.new ≡ string_bytes out.old ++ spec.lines_text
        (map (line_of (given_among (map equation_of equations.now.items) (map rule_forms_of rules.now.items))) (map entry_of entries.now.items))) }
    ensures numbered { OnOk result (Every (LineHasNames numbered_names)
        (map (line_of (given_among (map equation_of equations.now.items) (map rule_forms_of rules.now.items))) (map entry_of entries.now.items))) }
{
    for entry in entries {
        let line = log_line(alloc, equations, rules, entry)?;
        out.push_str(line.as_str())?;
        out.push_str("\n")?;
    }
    Ok(())
}

/// The block of the log: its lines, the oldest entry first, and its visible trace.
///
/// # Errors
///
/// `AllocError` where memory is wanting.
pub fn log_block(
    alloc: Global,
    signature: &Signature,
    rules: &RuleBook,
    log: &Log,
) -> Result<String, AllocError>
    ensures text { IfOk result (λ text. string_bytes text
        ≡ spec.log_block (given_among (map equation_of signature.now.equations.items) (map rule_forms_of rules.now.rules.items)) (log_of log.now)) }
    ensures numbered { OnOk result (HasNumberedLines
        (given_among (map equation_of signature.now.equations.items) (map rule_forms_of rules.now.rules.items)) (log_of log.now)) }
{
    let trace = visible_trace(alloc, log)?;
    let mut out = String::from_str(alloc, "log:\n")?;
    write_lines(
        alloc,
        &mut out,
        &signature.equations,
        &rules.rules,
        &log.entries,
    )?;
    let block = trace_block(alloc, &trace)?;
    out.push_str(block.as_str())?;
    Ok(out)
}
