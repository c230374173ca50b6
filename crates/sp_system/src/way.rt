// How the adversary learns a message at an event, as far as that is settled.

ghost use Rattle.std.specs.Prelude.{◌≡◌, IfOk, map};
ghost use Rattle.sp_spec.specs.Term.{valued};
ghost use Rattle.sp_spec.specs.Change.{time_replaced};
ghost use Rattle.sp_spec.specs.Substitution.{bound_to};
ghost use Rattle.sp_spec_system.specs.Equating.{way_changed};
ghost use Rattle.sp_term.specs.Bindings.{bindings};
ghost use Rattle.sp_term.specs.View.{view};
ghost use Rattle.sp_system.specs.WayView.{way_of, chain_of};

use crate::time::changed_time;
use sp_term::subst::{Subst, apply};
use sp_term::term::{Term, copied};
use std::alloc::{AllocError, Global};

/// Messages that lead from what an event puts out to what is learnt.
#[derive(Drop)]
pub struct Chain {
    /// the time of the event that puts it out
    pub time: u128,
    /// the place of the conclusion there, from 0
    pub conclusion: usize,
    /// the messages, from the conclusion's argument on
    pub messages: Vec<Term>,
}

/// How a message is learnt.
#[derive(Drop)]
pub enum Way {
    /// this isn't settled
    Anyhow,
    /// as a public name
    PublicName,
    /// as a fresh name of the adversary's own
    OwnName,
    /// by applying a symbol
    Constructed,
    /// by a chain that begins with these messages
    ChainBegun(Chain),
    /// by a chain that has no more than these messages
    ChainDone(Chain),
}

fn changed_messages(
    alloc: Global,
    subst: &Subst,
    messages: &Vec<Term>,
) -> Result<Vec<Term>, AllocError>
    ensures { IfOk result (λ ts. map view ts.items ≡ map (valued (bound_to (bindings subst.now))) (map view messages.now.items)) }
{
    let mut made = Vec::with_capacity(alloc, messages.len())?;
    for message in messages {
        made.push(apply(alloc, subst, message)?)?;
    }
    Ok(made)
}

impl Clone for Chain {
    ghost is_clone = { λ c d. chain_of d ≡ chain_of c };

    fn clone(&self) -> Result<Chain, AllocError> {
        let messages = copied(&self.messages)?;
        Ok(Chain {
            time: self.time,
            conclusion: self.conclusion,
            messages,
        })
    }
}

impl Chain {
    // The chain with each bound variable replaced, and with `small` in place of `large`.
    fn changed(
        &self,
        alloc: Global,
        subst: &Subst,
        small: u128,
        large: u128,
    ) -> Result<Chain, AllocError>
        ensures { IfOk result (λ c. chain_of c ≡ (time_replaced small large self.now.time, self.now.conclusion, map (valued (bound_to (bindings subst.now))) (map view self.now.messages.items))) }
    {
        let messages = changed_messages(alloc, subst, &self.messages)?;
        Ok(Chain {
            time: changed_time(small, large, self.time),
            conclusion: self.conclusion,
            messages,
        })
    }
}

impl Clone for Way {
    ghost is_clone = { λ v w. way_of w ≡ way_of v };

    fn clone(&self) -> Result<Way, AllocError> {
        match self {
            Way::Anyhow => Ok(Way::Anyhow),
            Way::PublicName => Ok(Way::PublicName),
            Way::OwnName => Ok(Way::OwnName),
            Way::Constructed => Ok(Way::Constructed),
            Way::ChainBegun(chain) => {
                let chain = chain.clone()?;
                Ok(Way::ChainBegun(chain))
            }
            Way::ChainDone(chain) => {
                let chain = chain.clone()?;
                Ok(Way::ChainDone(chain))
            }
        }
    }
}

impl Way {
    /// The way with each bound variable replaced, and with the time `small` in place of `large`.
    ///
    /// # Errors
    ///
    /// `AllocError` where memory is wanting.
    pub fn changed(
        &self,
        alloc: Global,
        subst: &Subst,
        small: u128,
        large: u128,
    ) -> Result<Way, AllocError>
        ensures { IfOk result (λ w. way_of w ≡ way_changed (bound_to (bindings subst.now)) (time_replaced small large) (way_of self.now)) }
    {
        match self {
            Way::Anyhow => Ok(Way::Anyhow),
            Way::PublicName => Ok(Way::PublicName),
            Way::OwnName => Ok(Way::OwnName),
            Way::Constructed => Ok(Way::Constructed),
            Way::ChainBegun(chain) => {
                let chain = chain.changed(alloc, subst, small, large)?;
                Ok(Way::ChainBegun(chain))
            }
            Way::ChainDone(chain) => {
                let chain = chain.changed(alloc, subst, small, large)?;
                Ok(Way::ChainDone(chain))
            }
        }
    }
}
