// Steps of logs.

ghost use Rattle.std.specs.Prelude.{◌≡◌};
ghost use Rattle.sp_log.specs.View.{entry_of};

use sp_fact::ground_fact::GroundFacts;
use sp_term::term::Name;
use std::alloc::AllocError;

/// Where a premise comes from.
#[derive(Clone, Copy, Debug, PartialEq, Eq)]
pub enum Source {
    /// the built-in fresh rule
    FreshRule,
    /// of the entry at a position, counted from 0, the oldest first, the conclusion of a place, counted from 0
    Conclusion(usize, usize),
}

/// What a rule did: an instance of it, with a source for each of its premises.
#[derive(Drop)]
pub struct Entry {
    /// the rule's name
    pub rule: Name,
    /// the instance
    pub facts: GroundFacts,
    /// the sources of its premises, in their order
    pub sources: Vec<Source>,
}

impl Clone for Entry {
    ghost is_clone = { λ e f. entry_of f ≡ entry_of e };

    fn clone(&self) -> Result<Entry, AllocError> {
        let rule = self.rule.clone()?;
        let facts = self.facts.clone()?;
        let sources = Vec::from_slice(*self.sources.allocator(), &self.sources)?;
        Ok(Entry {
            rule,
            facts,
            sources,
        })
    }
}
