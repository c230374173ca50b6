// Learning logs.

ghost use Rattle.std.specs.Prelude.{◌≡◌, IfOk, map};
ghost use Rattle.sp_fact.specs.GroundView.{ground_of};
ghost use Rattle.sp_learn.specs.Learning as spec;
ghost use Rattle.sp_learn.specs.View.{entries_of, entry_of, how_of};

use sp_fact::ground_term::GroundTerm;
use sp_log::log::Entry as StepEntry;
use sp_term::term::copied;
use std::alloc::{AllocError, Global};

/// How a message is learnt.
#[derive(Drop)]
pub enum How {
    /// as a public name
    PublicName,
    /// as a fresh name of the adversary's own
    OwnName,
    /// by applying a symbol to what is learnt
    Constructed,
    /// out of what a step puts out, by a chain of destructions
    Chain {
        /// the step's position, counted from 0, the oldest first
        step: usize,
        /// the place of its conclusion, counted from 0
        conclusion: usize,
        /// from the argument of that conclusion to what is learnt
        messages: Vec<GroundTerm>,
    },
}

/// What a rule did, or what the adversary sent or learnt.
#[derive(Drop)]
pub enum Entry {
    /// an instance of a rule
    Step(StepEntry),
    /// a message that was sent
    Send(GroundTerm),
    /// a message that was learnt, and how
    Learn(GroundTerm, How),
}

/// What was done, one after the other.
#[derive(Drop)]
pub struct Log {
    /// the entries, the oldest first
    pub entries: Vec<Entry>,
}

/// The messages that entries learn.
///
/// # Errors
///
/// `AllocError` where memory is wanting.
pub fn learnt_in(alloc: Global, entries: &[Entry]) -> Result<Vec<GroundTerm>, AllocError>
    ensures { IfOk result (λ ms. map ground_of ms.items ≡ spec.learnt_in (map entry_of entries.now)) }
{
    let mut learnt = Vec::new(alloc);
    for entry in entries {
        if let Entry::Learn(message, _) = entry {
            learnt.push(message.clone()?)?;
        }
    }
    Ok(learnt)
}

impl Clone for How {
    ghost is_clone = { λ g h. how_of h ≡ how_of g };

    fn clone(&self) -> Result<How, AllocError> {
        match self {
            How::PublicName => Ok(How::PublicName),
            How::OwnName => Ok(How::OwnName),
            How::Constructed => Ok(How::Constructed),
            How::Chain {
                step,
                conclusion,
                messages,
            } => {
                let messages = copied(messages)?;
                Ok(How::Chain {
                    step: *step,
                    conclusion: *conclusion,
                    messages,
                })
            }
        }
    }
}

impl Clone for Entry {
    ghost is_clone = { λ e f. entry_of f ≡ entry_of e };

    fn clone(&self) -> Result<Entry, AllocError> {
        match self {
            Entry::Step(step) => Ok(Entry::Step(step.clone()?)),
            Entry::Send(message) => Ok(Entry::Send(message.clone()?)),
            Entry::Learn(message, how) => {
                let message = message.clone()?;
                let how = how.clone()?;
                Ok(Entry::Learn(message, how))
            }
        }
    }
}

impl Clone for Log {
    ghost is_clone = { λ r s. entries_of s ≡ entries_of r };

    #[tactic(auto, using(sp_term::proofs::Cloned::cloned))]
    fn clone(&self) -> Result<Log, AllocError> {
        let entries = self.entries.clone()?;
        Ok(Log { entries })
    }
}
