// Systems in memory.

ghost use Rattle.std.specs.Prelude.{◌≡◌, IfOk, OnOk, map};
ghost use Rattle.sp_spec.specs.Substitution.{bound_to};
ghost use Rattle.sp_term.specs.Bindings.{bindings};
ghost use Rattle.sp_formula.specs.FormulaView.{formula_of};
ghost use Rattle.sp_spec_system.specs.System.{formulas_alone};
ghost use Rattle.sp_spec_system.specs.Equating.{link_changed, same_source, same_premise, system_changed};
ghost use Rattle.sp_spec.specs.Change.{time_replaced};
ghost use Rattle.sp_system.specs.SystemView.{link_of, system_of};

use crate::changes::{changed_events, changed_links, changed_pairs};
use crate::event::Event;
use crate::time::{changed_last, changed_time};
use sp_formula::formula::Formula;
use sp_formula::shared::{SharedFormula, all_shared, changed_shared};
use sp_order::order::Order;
use sp_shared::copies::Copies;
use sp_shared::list::empty;
use sp_shared::shared::Shared;
use sp_term::subst::Subst;
use sp_term::term::Term;
use std::alloc::{AllocError, Global};

/// Where a premise comes from: what one event concludes is a premise of another.
#[derive(Clone, Copy, Debug, PartialEq, Eq)]
pub struct Link {
    /// the time of the event that concludes it
    pub from: u128,
    /// the place of the conclusion there, from 0
    pub conclusion: usize,
    /// the time of the event that takes it
    pub to: u128,
    /// the place of the premise there, from 0
    pub premise: usize,
}

/// Two terms with different values; copies share them.
pub type UnequalPair = Shared<(Term, Term)>;

/// What a log has to satisfy; copies share each of its lists until one of them is written.
#[derive(Drop)]
pub struct System {
    /// the events that it has
    pub events: Shared<Vec<Event>>,
    /// what is true of it
    pub formulas: Shared<Vec<SharedFormula>>,
    /// what is true of it too, and has been used
    pub spent: Shared<Vec<SharedFormula>>,
    /// the pairs of terms with different values
    pub unequal: Shared<Vec<UnequalPair>>,
    /// the sources of premises
    pub links: Shared<Vec<Link>>,
    /// the pairs of times of which the first is before the second
    pub order: Order,
    /// the time that is said to be the last one, if one is
    pub last: Option<u128>,
    /// whether nothing happens but at its events
    pub closed: bool,
    /// a number above those of all variables and times
    pub next: u128,
}

impl Link {
    /// Whether the links have one source.
    pub fn same_source(self, other: Link) -> bool
        ensures { result ≡ same_source (link_of self) (link_of other) }
    {
        self.from == other.from && self.conclusion == other.conclusion
    }

    /// Whether the links lead to one premise.
    pub fn same_premise(self, other: Link) -> bool
        ensures { result ≡ same_premise (link_of self) (link_of other) }
    {
        self.to == other.to && self.premise == other.premise
    }

    /// The link with `small` in place of `large`.
    pub(crate) fn changed(self, small: u128, large: u128) -> Link
        ensures { link_of result ≡ link_changed (time_replaced small large) (link_of self) }
    {
        Link {
            from: changed_time(small, large, self.from),
            conclusion: self.conclusion,
            to: changed_time(small, large, self.to),
            premise: self.premise,
        }
    }
}

/// A copy is a few numbers.
impl Copies for Link {
    fn copied(&self) -> Result<Link, AllocError> {
        Ok(*self)
    }
}

impl Clone for System {
    ghost is_clone = { λ s t. system_of t ≡ system_of s };

    fn clone(&self) -> Result<System, AllocError> {
        let events = self.events.share()?;
        let formulas = self.formulas.share()?;
        let spent = self.spent.share()?;
        let unequal = self.unequal.share()?;
        let links = self.links.share()?;
        let order = self.order.share()?;
        Ok(System {
            events,
            formulas,
            spent,
            unequal,
            links,
            order,
            last: self.last,
            closed: self.closed,
            next: self.next,
        })
    }
}

impl System {
    /// Nothing but these formulas.
    ///
    /// # Errors
    ///
    /// `AllocError` where memory is wanting.
    pub fn of_formulas(alloc: Global, formulas: Vec<Formula>) -> Result<System, AllocError>
        ensures { IfOk result (λ s. system_of s ≡ formulas_alone (map formula_of formulas.items)) }
    {
        let formulas = all_shared(alloc, formulas)?;
        let formulas = Shared::new(alloc, formulas)?;
        let events = empty(alloc)?;
        let spent = empty(alloc)?;
        let unequal = empty(alloc)?;
        let links = empty(alloc)?;
        let order = Order::new(alloc)?;
        Ok(System {
            events,
            formulas,
            spent,
            unequal,
            links,
            order,
            last: None,
            closed: false,
            next: 0,
        })
    }

    /// The system with each bound variable replaced, and with the time `small` in place of `large`.
    pub fn changed(
        &self,
        alloc: Global,
        subst: &Subst,
        small: u128,
        large: u128,
    ) -> Result<System, AllocError>
        ensures { IfOk result (λ s. system_of s ≡ system_changed (bound_to (bindings subst.now)) (time_replaced small large) (system_of self.now)) }
    {
        let events = changed_events(alloc, subst, small, large, &self.events)?;
        let formulas = changed_shared(alloc, subst, small, large, &self.formulas)?;
        let spent = changed_shared(alloc, subst, small, large, &self.spent)?;
        let unequal = changed_pairs(alloc, subst, &self.unequal)?;
        let links = changed_links(alloc, small, large, &self.links)?;
        let order = self.order.changed(alloc, small, large)?;
        Ok(System {
            events,
            formulas,
            spent,
            unequal,
            links,
            order,
            last: changed_last(small, large, self.last),
            closed: self.closed,
            next: self.next,
        })
    }

    /// The system with each bound variable replaced; the times stay.
    pub fn with_terms(&self, alloc: Global, subst: &Subst) -> Result<System, AllocError>
        ensures { IfOk result (λ s. system_of s ≡ system_changed (bound_to (bindings subst.now)) (λ i. i) (system_of self.now)) }
    {
        let made = self.changed(alloc, subst, 0, 0)?;
        Ok(made)
    }

    /// Replaces each bound variable, and puts the time `small` in place of `large`.
    ///
    /// # Errors
    ///
    /// `AllocError` where memory is wanting.
    pub fn change(
        &mut self,
        alloc: Global,
        subst: &Subst,
        small: u128,
        large: u128,
    ) -> Result<(), AllocError>
        ensures { OnOk result (system_of self.new ≡ system_changed (bound_to (bindings subst.now)) (time_replaced small large) (system_of self.old)) }
    {
        let made = self.changed(alloc, subst, small, large)?;
        *self = made;
        Ok(())
    }

    /// Replaces each bound variable; the times stay.
    ///
    /// # Errors
    ///
    /// `AllocError` where memory is wanting.
    pub fn change_terms(&mut self, alloc: Global, subst: &Subst) -> Result<(), AllocError>
        ensures { OnOk result (system_of self.new ≡ system_changed (bound_to (bindings subst.now)) (λ i. i) (system_of self.old)) }
    {
        let made = self.with_terms(alloc, subst)?;
        *self = made;
        Ok(())
    }
}
