// The trace, and what is true over it.

ghost use Rattle.std.specs.Prelude.{◌≡◌, ◌++◌, IfOk, OnOk, map};
ghost use Rattle.sp_fact.specs.GroundView.{entries_of, trace_of};
ghost use Rattle.sp_spec_printed.specs.Printed.{trace_block};
ghost use Rattle.sp_pose.specs.Asked.{asked_of};
ghost use Rattle.sp_pose.specs.Required.{required_of};
ghost use Rattle.sp_replay.specs.Held.{required_line, required_lines, held_text, held_line, held_lines};
ghost use Rattle.sp_replay.specs.Replay as spec;

use sp_eval::truth::holds;
use sp_fact::ground_fact::Trace;
use sp_pose::{GuardedLemma, GuardedRestriction, kind_text};
use sp_show::trace::trace_block;
use std::alloc::{AllocError, Global};

/// The words for a formula that is true, or isn't.
fn met_text(met: bool) -> &'static [u8]
    ensures { result.now ≡ spec.met_text met }
{
    if met { b"met\n" } else { b"broken\n" }
}

/// Puts the line of a restriction at the end.
fn write_restriction(
    alloc: Global,
    out: &mut Vec<u8>,
    restriction: &GuardedRestriction,
    trace: &Trace,
) -> Result<(), AllocError>
    ensures { OnOk result (out.new.items ≡ out.old.items ++ required_line (trace_of trace.now) (required_of restriction.now)) }
{
    let met = holds(alloc, &restriction.form, trace)?;
    out.extend_from_slice(restriction.name.as_bytes())?;
    out.extend_from_slice(b" (restriction): ")?;
    out.extend_from_slice(met_text(met))
}

/// Puts a line for each restriction at the end.
fn write_restrictions(
    alloc: Global,
    out: &mut Vec<u8>,
    restrictions: &Vec<GuardedRestriction>,
    trace: &Trace,
) -> Result<(), AllocError>
    ensures { OnOk result (out.new.items ≡ out.old.items ++ required_lines (trace_of trace.now) (map required_of restrictions.now.items)) }
{
    for restriction in restrictions {
        write_restriction(alloc, out, restriction, trace)?;
    }
    Ok(())
}

/// Puts at the end whether the lemma is true over the trace, or that it isn't read there: so a lemma that names learning.
fn write_said(
    alloc: Global,
    out: &mut Vec<u8>,
    lemma: &GuardedLemma,
    trace: &Trace,
) -> Result<(), AllocError>
    ensures { OnOk result (out.new.items ≡ out.old.items ++ held_text (trace_of trace.now) (asked_of lemma.now)) }
{
    if lemma.marked {
        return out.extend_from_slice(b"not read on executions\n");
    }
    let met = holds(alloc, &lemma.form, trace)?;
    out.extend_from_slice(met_text(met))
}

/// Puts the line of a lemma at the end.
fn write_lemma(
    alloc: Global,
    out: &mut Vec<u8>,
    lemma: &GuardedLemma,
    trace: &Trace,
) -> Result<(), AllocError>
    ensures { OnOk result (out.new.items ≡ out.old.items ++ held_line (trace_of trace.now) (asked_of lemma.now)) }
{
    out.extend_from_slice(lemma.name.as_bytes())?;
    out.extend_from_slice(b" (")?;
    out.extend_from_slice(kind_text(lemma.kind).as_bytes())?;
    out.extend_from_slice(b"): ")?;
    write_said(alloc, out, lemma, trace)
}

/// Puts a line for each lemma at the end.
fn write_lemmas(
    alloc: Global,
    out: &mut Vec<u8>,
    lemmas: &Vec<GuardedLemma>,
    trace: &Trace,
) -> Result<(), AllocError>
    ensures { OnOk result (out.new.items ≡ out.old.items ++ held_lines (trace_of trace.now) (map asked_of lemmas.now.items)) }
{
    for lemma in lemmas {
        write_lemma(alloc, out, lemma, trace)?;
    }
    Ok(())
}

/// The block of the trace, and a line for each restriction and for each lemma.
pub fn written_by(
    alloc: Global,
    restrictions: &Vec<GuardedRestriction>,
    lemmas: &Vec<GuardedLemma>,
    trace: &Trace,
) -> Result<Vec<u8>, AllocError>
    ensures { IfOk result (λ text. text.items ≡ trace_block (entries_of trace.now) ++ (required_lines (trace_of trace.now) (map required_of restrictions.now.items) ++ held_lines (trace_of trace.now) (map asked_of lemmas.now.items))) }
{
    let block = trace_block(alloc, trace)?;
    let mut out = Vec::from_slice(alloc, block.as_bytes())?;
    write_restrictions(alloc, &mut out, restrictions, trace)?;
    write_lemmas(alloc, &mut out, lemmas, trace)?;
    Ok(out)
}
