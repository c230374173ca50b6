// The warnings on a theory.

ghost use Rattle.std.specs.Prelude.{◌≡◌, IfOk, map, string_bytes};
ghost use Rattle.sp_written.specs.Views as view;
ghost use Rattle.sp_warn.specs.Warnings.{lines_of, warnings_on};

use crate::actions::tell_actions;
use crate::alike::tell_alike;
use crate::constants::constants_in;
use crate::forms::forms_in;
use crate::induction::tell_induction;
use crate::made::Made;
use crate::several::tell_several;
use crate::sources::tell_sources;
use sp_lines::Texts;
use sp_written::ReadTheory;
use std::alloc::{AllocError, Global};

/// The lines of the warnings on a theory in which values stand for the names that are bound, and symbols for the names that are such: by the kind of
/// warning, and then by the text, each line once.
///
/// # Errors
///
/// `AllocError` where memory is wanting.
pub fn warnings(alloc: Global, theory: &ReadTheory) -> Result<Vec<String>, AllocError>
    ensures { IfOk result (λ ls. map string_bytes ls.items ≡ lines_of (warnings_on (view.items theory.now.items.items))) }
{
    let items = &theory.items;
    let made = Made::by(alloc, items)?;
    let forms = forms_in(alloc, items)?;
    let constants = constants_in(alloc, items)?;
    let mut lines = Texts::new(alloc);
    tell_sources(alloc, &mut lines, &made, items)?;
    tell_actions(alloc, &mut lines, &made, items)?;
    tell_alike(alloc, &mut lines, &constants)?;
    tell_several(alloc, &mut lines, &forms)?;
    tell_induction(alloc, &mut lines, items)?;
    lines.into_vec(alloc)
}
