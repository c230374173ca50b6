// Binders that are inside what is opened.

ghost use Rattle.std.specs.Prelude.{◌≡◌, IfOk, map};
ghost use Rattle.sp_spec.specs.Change.{Change, under};
ghost use Rattle.sp_formula.specs.FormulaView.{binder_of};
ghost use Rattle.sp_rows_formula.specs.InsideView.{inside_of, under_one};

use sp_formula::formula::Binder;
use std::alloc::AllocError;

/// How many binders stand between a place and what is opened.
#[derive(Clone, Copy, Debug, PartialEq, Eq)]
pub struct Inside {
    /// those of messages
    pub messages: u64,
    /// those of times
    pub times: u64,
}

impl Inside {
    // With one more binder.
    fn with(self, binder: Binder) -> Result<Inside, AllocError>
        ensures { IfOk result (λ i. (c : Change) → inside_of i c ≡ under_one (binder_of binder) (inside_of self c)) }
    {
        match binder {
            Binder::Message(_) => match self.messages.checked_add(1) {
                Some(messages) => Ok(Inside {
                    messages,
                    times: self.times,
                }),
                None => Err(AllocError),
            },
            Binder::Time => match self.times.checked_add(1) {
                Some(times) => Ok(Inside {
                    messages: self.messages,
                    times,
                }),
                None => Err(AllocError),
            },
        }
    }

    /// With these binders too.
    ///
    /// # Errors
    ///
    /// `AllocError` where they can't be counted.
    pub fn under(self, binders: &Vec<Binder>) -> Result<Inside, AllocError>
        ensures { IfOk result (λ i. (c : Change) → inside_of i c ≡ under (map binder_of binders.now.items) (inside_of self c)) }
    {
        let mut made = self;
        for binder in binders {
            made = made.with(*binder)?;
        }
        Ok(made)
    }
}
