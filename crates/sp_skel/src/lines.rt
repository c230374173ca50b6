// Lines of a text, and the texts of moves.

ghost use Rattle.std.specs.Prelude.{◌≡◌, ◌++◌, IfOk, OnOk, string_bytes};
ghost use Rattle.sp_step.specs.View.{move_of};
ghost use Rattle.sp_skel.specs.Places.{HasPlace};
ghost use Rattle.sp_skel.specs.TreeText as spec;

use sp_step::moves::Move;
use sp_step::words::Words;
use std::alloc::{AllocError, Global};

/// Puts two blanks at the end for each level of depth.
fn write_indent(out: &mut String, depth: u64) -> Result<(), AllocError>
    ensures { OnOk result (string_bytes out.new ≡ string_bytes out.old ++ spec.indent depth) }
{
    for _level in 0..depth {
        out.push_str("  ")?;
    }
    Ok(())
}

/// Puts a line at the end, whose text has two parts.
pub fn write_line(out: &mut String, depth: u64, start: &str, end: &str) -> Result<(), AllocError>
    ensures { OnOk result (string_bytes out.new ≡ string_bytes out.old ++ spec.line depth (start.now ++ end.now)) }
{
    write_indent(out, depth)?;
    out.push_str(start)?;
    out.push_str(end)?;
    out.push_str("\n")
}

/// The text of a move.
pub fn move_text(alloc: Global, chosen: &Move) -> Result<String, AllocError>
    ensures text { IfOk result (λ t. string_bytes t ≡ spec.move_text (move_of chosen.now)) }
    ensures place { OnOk result (HasPlace (move_of chosen.now)) }
{
    let words = Words::of(alloc, chosen)?;
    let mut text = String::new(alloc);
    words.write(&mut text)?;
    Ok(text)
}

/// The text of a move without cases, and what stands before it.
pub fn leaf_text(alloc: Global, chosen: &Move) -> Result<String, AllocError>
    ensures text { IfOk result (λ t. string_bytes t ≡ spec.leading (move_of chosen.now) ++ spec.move_text (move_of chosen.now)) }
    ensures place { OnOk result (HasPlace (move_of chosen.now)) }
{
    let words = Words::of(alloc, chosen)?;
    let mut text = String::new(alloc);
    if !words.stand_alone() {
        text.push_str("by ")?;
    }
    words.write(&mut text)?;
    Ok(text)
}
