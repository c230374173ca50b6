// What the elements of a shared list have to offer.

ghost use Rattle.std.specs.Prelude.{◌≡◌, IfOk};

use crate::shared::Shared;
use std::alloc::{AllocError, Global};

/// A value that is copied in a few steps, whatever it holds.
pub trait Copies: Drop {
    /// The same value once more; it takes no memory.
    ///
    /// # Errors
    ///
    /// `AllocError` where there are more handles to what it shares than can be counted.
    fn copied(&self) -> Result<Self, AllocError>
        ensures { IfOk result (λ x. x ≡ self.now) };
}

/// What is shared is never copied: another handle is.
impl<T: Drop> Copies for Shared<T> {
    fn copied(&self) -> Result<Shared<T>, AllocError> {
        self.share()
    }
}

/// The same list, with room for more elements.
///
/// # Errors
///
/// `AllocError` where memory is wanting.
pub fn copied_all<T: Copies>(alloc: Global, items: &[T], room: usize) -> Result<Vec<T>, AllocError>
    ensures { IfOk result (λ made. made.items ≡ items.now) }
{
    let mut made = Vec::with_capacity(alloc, items.len().saturating_add(room))?;
    for item in items {
        made.push(item.copied()?)?;
    }
    Ok(made)
}
