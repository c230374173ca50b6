// The texts of actions and traces.

ghost use Rattle.std.specs.Prelude.{◌≡◌, ◌++◌, IfOk, OnOk, map, string_bytes};
ghost use Rattle.sp_fact.specs.GroundView.{entries_of, ground_action};
ghost use Rattle.sp_spec_printed.specs.Printed.{action_text, entry_text, trace_block};

use crate::term::{write_arguments, write_separator};
use sp_fact::ground_fact::{GroundAction, Trace};
use std::alloc::{AllocError, Global};

/// Puts the text of the action.
pub fn write_action(out: &mut String, action: &GroundAction) -> Result<(), AllocError>
    ensures { OnOk result (string_bytes out.new ≡ string_bytes out.old ++ action_text (ground_action action.now)) }
{
    out.push_str(action.symbol.text.as_str())?;
    out.push_str("(")?;
    write_arguments(out, &action.args)?;
    out.push_str(")")
}

/// Puts the line of an entry.
fn write_entry(out: &mut String, entry: &Vec<GroundAction>) -> Result<(), AllocError>
    ensures { OnOk result (string_bytes out.new ≡ string_bytes out.old ++ entry_text (map ground_action entry.now.items)) }
{
    let mut first = true;
    for action in entry {
        write_separator(out, first)?;
        write_action(out, action)?;
        first = false;
    }
    out.push_str("\n")?;
    Ok(())
}

/// The block of a trace, the oldest entry first.
///
/// # Errors
///
/// `AllocError` where memory is wanting.
pub fn trace_block(alloc: Global, trace: &Trace) -> Result<String, AllocError>
    ensures { IfOk result (λ text. string_bytes text ≡ trace_block (entries_of trace.now)) }
{
    let mut out = String::from_str(alloc, "trace:\n")?;
    for entry in &trace.entries {
        write_entry(&mut out, entry)?;
    }
    out.push_str("end of trace\n")?;
    Ok(out)
}
