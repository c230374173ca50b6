// Shared lists, and how they are written.

ghost use Rattle.std.specs.Prelude.{◌≡◌, ◌<◌, suc, IfOk, OnOk, OnErr, length, [], ◌∷◌, ◌++◌, take, drop};

use crate::copies::{Copies, copied_all};
use crate::shared::Shared;
use std::alloc::{AllocError, Global};
use std::rc::Rc;

/// The empty list.
///
/// # Errors
///
/// `AllocError` where memory is wanting.
pub fn empty<T: Drop>(alloc: Global) -> Result<Shared<Vec<T>>, AllocError>
    ensures { IfOk result (λ s. s.items ≡ []) }
{
    Shared::new(alloc, Vec::new(alloc))
}

// Puts these in the place of the element.
fn replace_in<T: Drop>(
    items: &mut Vec<T>,
    place: usize,
    mut instead: Vec<T>,
) -> Result<(), AllocError>
    requires { place < length items.old.items }
    ensures { OnOk result (items.new.items ≡ take place items.old.items ++ (instead.items ++ drop (suc place) items.old.items)) }
{
    let mut behind = items.split_off(place)?;
    behind.remove(0);
    items.append(&mut instead)?;
    items.append(&mut behind)?;
    Ok(())
}

impl<T: Copies> Shared<Vec<T>> {
    // The list with no other handle to it: a copy with room for more elements, where it was shared.
    fn alone(&mut self, alloc: Global, room: usize) -> Result<(), AllocError>
        ensures { self.new.items ≡ self.old.items }
    {
        if Rc::strong_count(&self.value) != 1 {
            let made = copied_all(alloc, &self.value, room)?;
            self.value = Rc::new(alloc, made)?;
        }
        Ok(())
    }

    /// Adds the element at the end. Other handles keep their list.
    ///
    /// # Errors
    ///
    /// `AllocError` where memory is wanting; the list is then as it was.
    pub fn push(&mut self, alloc: Global, item: T) -> Result<(), AllocError>
        ensures added { OnOk result (self.new.items ≡ self.old.items ++ item ∷ []) }
        ensures unchanged { OnErr result (self.new.items ≡ self.old.items) }
    {
        self.alone(alloc, 1)?;
        match Rc::get_mut(&mut self.value) {
            Some(items) => {
                items.push(item)?;
                Ok(())
            }
            None => Err(AllocError),
        }
    }

    /// Adds the elements at the end, in their order. Other handles keep their list.
    ///
    /// # Errors
    ///
    /// `AllocError` where memory is wanting.
    pub fn append(&mut self, alloc: Global, mut more: Vec<T>) -> Result<(), AllocError>
        ensures { OnOk result (self.new.items ≡ self.old.items ++ more.items) }
    {
        self.alone(alloc, more.len())?;
        match Rc::get_mut(&mut self.value) {
            Some(items) => {
                items.append(&mut more)?;
                Ok(())
            }
            None => Err(AllocError),
        }
    }

    /// Puts these in the place of the element. Other handles keep their list.
    ///
    /// # Errors
    ///
    /// `AllocError` where memory is wanting.
    pub fn replace(
        &mut self,
        alloc: Global,
        place: usize,
        instead: Vec<T>,
    ) -> Result<(), AllocError>
        requires { place < length self.old.items }
        ensures { OnOk result (self.new.items ≡ take place self.old.items ++ (instead.items ++ drop (suc place) self.old.items)) }
    {
        self.alone(alloc, instead.len())?;
        match Rc::get_mut(&mut self.value) {
            Some(items) => {
                replace_in(items, place, instead)?;
                Ok(())
            }
            None => Err(AllocError),
        }
    }
}
