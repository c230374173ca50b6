// Orders that copies share.

ghost use Rattle.std.specs.Prelude.{◌≡◌, ◌++◌, ◌∷◌, [], map, IfOk, OnOk, OnErr};
ghost use Rattle.sp_spec_system.specs.Order as spec;
ghost use Rattle.sp_spec_system.specs.Equating.{order_changed};
ghost use Rattle.sp_spec.specs.Change.{time_replaced};

use crate::closure::{Closure, with_changed};
use std::alloc::{AllocError, Global};
use std::marker::Model;
use std::rc::Rc;

/// Pairs of times of which the first is before the second.
#[derive(Drop)]
pub struct Order {
    closure: Rc<Closure>,
}

impl Model for Order {
    ghost use Rattle.std.specs.Prelude.{List, ℕ};

    ghost Value = { List (ℕ × ℕ) };

    ghost view = { λ o. o.closure.value.pairs };
}

impl Order {
    /// No pairs.
    ///
    /// # Errors
    ///
    /// `AllocError` where memory is wanting.
    pub fn new(alloc: Global) -> Result<Order, AllocError>
        ensures { IfOk result (λ o. o ≡ []) }
    {
        let closure = Rc::new(alloc, Closure::new(alloc))?;
        Ok(Order { closure })
    }

    /// A second handle to the order; it takes no memory.
    ///
    /// # Errors
    ///
    /// `AllocError` where there are more handles than can be counted.
    pub fn share(&self) -> Result<Order, AllocError>
        ensures { IfOk result (λ o. o ≡ self.now) }
    {
        let closure = self.closure.clone()?;
        Ok(Order { closure })
    }

    /// The pairs, in the order in which they were added.
    pub fn pairs(&self) -> &[(u128, u128)]
        ensures { result.now ≡ self.now }
    {
        self.closure.pairs()
    }

    /// Whether a path of the pairs leads from the first time to the second.
    pub fn before(&self, first: u128, second: u128) -> bool
        ensures { result ≡ spec.is_before self.now first second }
    {
        self.closure.before(first, second)
    }

    /// Whether a time is before itself.
    pub fn has_cycle(&self) -> bool
        ensures { result ≡ spec.is_cyclic self.now }
    {
        self.closure.has_cycle()
    }

    // The order with no other handle to it: a copy, where it was shared.
    fn alone(&mut self, alloc: Global) -> Result<(), AllocError>
        ensures { self.new ≡ self.old }
    {
        if Rc::strong_count(&self.closure) != 1 {
            let made = self.closure.copy(alloc)?;
            self.closure = Rc::new(alloc, made)?;
        }
        Ok(())
    }

    /// Adds the pair. Other handles keep their order.
    ///
    /// # Errors
    ///
    /// `AllocError` where memory is wanting; no pair is added then.
    pub fn add(&mut self, alloc: Global, first: u128, second: u128) -> Result<(), AllocError>
        ensures added { OnOk result (self.new ≡ self.old ++ (first, second) ∷ []) }
        ensures unchanged { OnErr result (self.new ≡ self.old) }
    {
        self.alone(alloc)?;
        match Rc::get_mut(&mut self.closure) {
            Some(closure) => closure.add(alloc, first, second),
            None => Err(AllocError),
        }
    }

    /// Adds the pairs. Other handles keep their order.
    ///
    /// # Errors
    ///
    /// `AllocError` where memory is wanting.
    pub fn add_all(&mut self, alloc: Global, pairs: &[(u128, u128)]) -> Result<(), AllocError>
        ensures { OnOk result (self.new ≡ self.old ++ pairs.now) }
    {
        for pair in pairs {
            self.add(alloc, pair.0, pair.1)?;
        }
        Ok(())
    }

    /// The order with `small` in place of `large`: the same one, where that changes nothing.
    ///
    /// # Errors
    ///
    /// `AllocError` where memory is wanting.
    pub fn changed(&self, alloc: Global, small: u128, large: u128) -> Result<Order, AllocError>
        ensures { IfOk result (λ o. o ≡ map (order_changed (time_replaced small large)) self.now) }
    {
        if self.closure.stays(small, large) {
            return self.share();
        }
        let made = with_changed(alloc, small, large, self.closure.pairs())?;
        let closure = Rc::new(alloc, made)?;
        Ok(Order { closure })
    }
}
