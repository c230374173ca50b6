// The cases around a node: for each of them the names of the later cases of the same move, the innermost last.

ghost use Rattle.std.specs.Prelude.{◌≡◌, [], ◌∷◌, length, map, MatchOption, OnOk, string_bytes};
ghost use Rattle.sp_skel.specs.AroundView.{around_of};

use std::alloc::AllocError;

/// Leaves the innermost case.
pub fn pop_names<'a>(around: &mut Vec<&'a [String]>) -> Option<&'a [String]>
    ensures { MatchOption result ((around_of around.old.items ≡ []) × (around_of around.new.items ≡ [])) (λ names. around_of around.old.items ≡ map string_bytes names.now ∷ around_of around.new.items) }
{
    around.pop()
}

/// Enters a case, behind which those of these names come.
pub fn push_names<'a>(around: &mut Vec<&'a [String]>, names: &'a [String]) -> Result<(), AllocError>
    ensures { OnOk result (around_of around.new.items ≡ map string_bytes names.now ∷ around_of around.old.items) }
{
    around.push(names)?;
    Ok(())
}

/// How many cases are around.
pub fn depth(around: &Vec<&[String]>) -> u64
    ensures { result ≡ length (around_of around.now.items) }
{
    around.len() as u64
}
