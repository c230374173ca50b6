// Public constants that differ in case only.

ghost use Rattle.std.specs.Prelude.{◌≡◌, ◌∷◌, ◌++◌, [], ℕ, List, None, OnOk, map, string_bytes, string_eq};
ghost use Rattle.indexmap.specs.IndexMap.{get, UpdatesBy};
ghost use Rattle.sp_declared.specs.View as declared;
ghost use Rattle.sp_warn.specs.Constants.{alike_before, alike_among};
ghost use Rattle.sp_warn.specs.Groups.{group_at, Grouped};
ghost use Rattle.sp_lines.specs.TextsView.{texts_of};
ghost use Rattle.sp_warn.specs.Told.{lines_after};

use crate::warning::{Warning, tell_if};
use indexmap::IndexMap;
use sp_lines::Texts;
use std::alloc::{AllocError, Global};

/// Tells of two constants, if they differ in case only.
fn tell_if_alike(
    alloc: Global,
    lines: &mut Texts,
    earlier: &str,
    constant: &str,
) -> Result<(), AllocError>
    ensures { OnOk result (texts_of lines.new ≡ lines_after (texts_of lines.old) (alike_before (earlier.now ∷ []) constant.now)) }
{
    let are_alike = earlier.eq_ignore_ascii_case(constant) && earlier != constant;
    tell_if(alloc, lines, are_alike, Warning::Alike(earlier, constant))
}

/// Tells of each of these constants that differs from the one in case only.
fn tell_alike_to(
    alloc: Global,
    lines: &mut Texts,
    earlier: &Vec<&str>,
    constant: &str,
) -> Result<(), AllocError>
    ensures { OnOk result (texts_of lines.new ≡ lines_after (texts_of lines.old) (alike_before (declared.texts_of earlier.now.items) constant.now)) }
{
    for other in earlier {
        tell_if_alike(alloc, lines, *other, constant)?;
    }
    Ok(())
}

/// Takes out the group of this name in lower case.
fn take_group<'c>(
    alloc: Global,
    groups: &mut IndexMap<String, Vec<&'c str>>,
    lower: &String,
) -> Vec<&'c str>
    ensures group { declared.texts_of result.items ≡ group_at (get string_eq groups.old lower.now) }
    ensures taken { UpdatesBy string_eq (string_eq lower.now) groups.old groups.new None }
{
    match groups.swap_remove(lower) {
        Some(group) => group,
        None => Vec::new(alloc),
    }
}

/// Tells of each constant in the groups that differs from this one in case only, and puts this one in its group. Constants that are the same in lower case
/// are a group.
fn tell_constant<'c>(
    alloc: Global,
    lines: &mut Texts,
    groups: &mut IndexMap<String, Vec<&'c str>>,
    constant: &'c str,
) -> Result<(), AllocError>
    ensures told { OnOk result ((before : List (List ℕ)) → Grouped groups.old before → texts_of lines.new ≡ lines_after (texts_of lines.old) (alike_before before constant.now)) }
    ensures grouped { OnOk result ((before : List (List ℕ)) → Grouped groups.old before → Grouped groups.new (before ++ constant.now ∷ [])) }
{
    let lower = constant.to_ascii_lowercase(alloc)?;
    let mut group = take_group(alloc, groups, &lower);
    tell_alike_to(alloc, lines, &group, constant)?;
    group.push(constant)?;
    groups.insert(lower, group)?;
    Ok(())
}

/// Tells of those of these constants that differ in case only.
pub fn tell_alike(
    alloc: Global,
    lines: &mut Texts,
    constants: &Vec<String>,
) -> Result<(), AllocError>
    ensures { OnOk result (texts_of lines.new ≡ lines_after (texts_of lines.old) (alike_among [] (map string_bytes constants.now.items))) }
{
    let mut groups = IndexMap::new(alloc);
    for constant in constants {
        tell_constant(alloc, lines, &mut groups, constant.as_str())?;
    }
    Ok(())
}
