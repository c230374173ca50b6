// The public names of a theory, sorted by their bytes.

ghost use Rattle.std.specs.Prelude.{◌≡◌, IfOk, OnOk, map};
ghost use Rattle.sp_term.specs.View.{name_of};
ghost use Rattle.sp_spec_proof.specs.Deciding.{placed_by_bytes, sorted_by_bytes};
ghost use Rattle.sp_undecided.specs.Placing as spec;

use sp_term::term::Name;
use std::alloc::{AllocError, Global};

// How many of the names in front are before it.
fn count_before(name: &Name, names: &Vec<Name>) -> usize
    ensures { result ≡ spec.count_before (name_of name.now) (map name_of names.now.items) }
{
    for (place, other) in names.iter().enumerate() {
        if !other.text.cmp(&name.text).is_lt() {
            return place;
        }
    }
    names.len()
}

// Puts it before the first name that it isn't behind.
fn place(names: &mut Vec<Name>, name: Name) -> Result<(), AllocError>
    ensures { OnOk result (map name_of names.new.items ≡ placed_by_bytes (name_of name) (map name_of names.old.items)) }
{
    let place = count_before(&name, names);
    names.insert(place, name)?;
    Ok(())
}

/// The names, sorted by their bytes.
///
/// # Errors
///
/// `AllocError` where memory is wanting.
pub(crate) fn sorted(alloc: Global, names: &Vec<Name>) -> Result<Vec<Name>, AllocError>
    ensures { IfOk result (λ made. map name_of made.items ≡ sorted_by_bytes (map name_of names.now.items)) }
{
    let mut made = Vec::with_capacity(alloc, names.len())?;
    for count in 0..names.len() {
        let name = names[names.len() - 1 - count].clone()?;
        place(&mut made, name)?;
    }
    Ok(made)
}
