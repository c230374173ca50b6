// A value behind a count of its owners.

ghost use Rattle.std.specs.Prelude.{◌≡◌, IfOk};

use std::alloc::{AllocError, Global};
use std::marker::Model;
use std::ops::Deref;
use std::rc::Rc;

/// A handle to a value that other handles may share; in a clause it is that value.
#[derive(Drop)]
pub struct Shared<T> {
    pub(crate) value: Rc<T>,
}

impl<T> Model for Shared<T> {
    ghost Value = { T };

    ghost view = { λ s. s.value.value };
}

impl<T: Drop> Shared<T> {
    /// A handle to the value, which no other handle shares.
    ///
    /// # Errors
    ///
    /// `AllocError` where memory is wanting.
    pub fn new(alloc: Global, value: T) -> Result<Shared<T>, AllocError>
        ensures { IfOk result (λ s. s ≡ value) }
    {
        let value = Rc::new(alloc, value)?;
        Ok(Shared { value })
    }

    /// A second handle to the value; it takes no memory.
    ///
    /// # Errors
    ///
    /// `AllocError` where there are more handles than can be counted.
    pub fn share(&self) -> Result<Shared<T>, AllocError>
        ensures { IfOk result (λ s. s ≡ self.now) }
    {
        let value = self.value.clone()?;
        Ok(Shared { value })
    }
}

/// A handle is read as the value that it shares.
impl<T> Deref for Shared<T> {
    type Target = T;

    ghost deref_gives = { λ s v. v ≡ s };

    fn deref(&self) -> &T
        ensures { result.now ≡ self.now }
    {
        &self.value
    }
}
