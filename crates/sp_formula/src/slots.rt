// What quantifiers bind, as far as its values are known.

ghost use Rattle.std.specs.Prelude.{◌≡◌, IfOk, option_map};
ghost use Rattle.sp_spec.specs.Slots as spec;
ghost use Rattle.sp_spec.specs.Slots.{filled_at};
ghost use Rattle.sp_spec.specs.Same.{same_by};
ghost use Rattle.sp_spec.specs.Matching.{has_sort_by};
ghost use Rattle.sp_term.specs.View.{view_by};
ghost use Rattle.sp_term.specs.Bindings.{answer};
ghost use Rattle.sp_formula.specs.SlotsView.{slot_by, slots_by};

use sp_term::term::{Leaf, Sort, Term, Variable, has_sort, same};
use std::alloc::AllocError;

/// A bound message.
#[derive(Drop)]
pub struct Slot<M = Variable> {
    /// what it ranges over
    pub sort: Sort,
    /// its value, once there is one
    pub value: Option<Term<M>>,
}

impl<M: Leaf> Clone for Slot<M> {
    ghost is_clone = { λ s t. slot_by M.leaf_of t ≡ slot_by M.leaf_of s };

    fn clone(&self) -> Result<Slot<M>, AllocError> {
        let value = match &self.value {
            Some(term) => Some(term.clone()?),
            None => None,
        };
        Ok(Slot {
            sort: self.sort,
            value,
        })
    }
}

/// The value of the message at the place, if there is one.
pub fn value_at<M: Leaf>(slots: &Vec<Slot<M>>, place: u64) -> Option<&Term<M>>
    ensures { option_map (λ t. view_by M.leaf_of t.now) result ≡ spec.value_at (slots_by M.leaf_of slots.now.items) place }
{
    let index = place as usize;
    if index >= slots.len() {
        return None;
    }
    slots[index].value.as_ref()
}

/// Makes the message at the place this term, if it has no value, and tells whether it is this term; beyond the binders, it is as is said.
/// What the slots hold after a `false` is not said.
///
/// # Errors
///
/// `AllocError` where memory is wanting.
pub fn fill<M: Leaf>(
    slots: &mut Vec<Slot<M>>,
    place: u64,
    term: &Term<M>,
    beyond: bool,
) -> Result<bool, AllocError>
    ensures { IfOk result (λ b. answer b (slots_by M.leaf_of slots.new.items)
        ≡ filled_at (same_by M.test) (has_sort_by M.of_sort) beyond place (view_by M.leaf_of term.now) (slots_by M.leaf_of slots.old.items)) }
{
    let index = place as usize;
    if index >= slots.len() {
        return Ok(beyond);
    }
    let slot = &slots[index];
    let sort = slot.sort;
    match &slot.value {
        Some(value) => Ok(same(value, term)),
        None => {
            if !has_sort(sort, term) {
                return Ok(false);
            }
            let value = Some(term.clone()?);
            slots[index] = Slot { sort, value };
            Ok(true)
        }
    }
}
