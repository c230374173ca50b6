// The edges of a learning log: from where each entry takes what it takes.

ghost use Rattle.std.specs.Prelude.{◌≡◌, ◌++◌, IfOk, OnOk, map};
ghost use Rattle.sp_spec.specs.Same.{same_term};
ghost use Rattle.sp_fact.specs.GroundView.{ground_of, grounds_of};
ghost use Rattle.sp_log.specs.View.{source_of};
ghost use Rattle.sp_learn.specs.View.{entry_of, how_of};
ghost use Rattle.sp_graph.specs.Edges as spec;
ghost use Rattle.sp_graph.specs.EdgesView.{edge_of};

use sp_fact::ground_term::GroundTerm;
use sp_learn::log::{Entry, How};
use sp_log::log::Source;
use sp_term::term::{Term, same};
use std::alloc::{AllocError, Global};

/// From the entry at the first position to the one at the second.
#[derive(Clone, Copy, Debug, PartialEq, Eq)]
pub struct Edge {
    /// the position of what is taken from, counted from 0, the oldest first
    pub from: usize,
    /// whether a fact is taken, or what was learnt or put out
    pub is_fact: bool,
    /// the position of what takes it
    pub to: usize,
}

// Whether a premise has its source in the entry at the position.
fn is_source(position: usize, sources: &Vec<Source>) -> bool
    ensures { result ≡ spec.is_source position (map source_of sources.now.items) }
{
    for source in sources {
        if let Source::Conclusion(from, _) = source {
            if position == *from {
                return true;
            }
        }
    }
    false
}

// Whether the message is one of these.
fn is_argument(message: &GroundTerm, arguments: &Vec<GroundTerm>) -> bool
    ensures { result ≡ spec.is_argument (ground_of message.now) (grounds_of arguments.now.items) }
{
    for argument in arguments {
        if same(message, argument) {
            return true;
        }
    }
    false
}

// Whether the message is an argument of the other.
fn is_part(message: &GroundTerm, whole: &GroundTerm) -> bool
    ensures { result ≡ spec.is_part (ground_of message.now) (ground_of whole.now) }
{
    match whole {
        Term::App(_, arguments, _) => is_argument(message, arguments),
        _ => false,
    }
}

// Whether the entry learns the message.
fn learns(entry: &Entry, message: &GroundTerm) -> bool
    ensures { result ≡ spec.learns_one (λ t. same_term t (ground_of message.now)) (entry_of entry.now) }
{
    match entry {
        Entry::Learn(learnt, _) => same(learnt, message),
        _ => false,
    }
}

// Whether the entry learns an argument of the message.
fn learns_part(entry: &Entry, message: &GroundTerm) -> bool
    ensures { result ≡ spec.learns_one (λ t. spec.is_part t (ground_of message.now)) (entry_of entry.now) }
{
    match entry {
        Entry::Learn(learnt, _) => is_part(learnt, message),
        _ => false,
    }
}

// Whether what is learnt in that way takes something from the entry at the position.
fn is_learnt_from(message: &GroundTerm, how: &How, position: usize, entry: &Entry) -> bool
    ensures { result ≡ spec.is_learnt_from (ground_of message.now) (how_of how.now) position (entry_of entry.now) }
{
    match how {
        How::PublicName | How::OwnName => false,
        How::Constructed => learns_part(entry, message),
        How::Chain { step, .. } => position == *step,
    }
}

// Whether the entry takes something from the other, which stands at the position.
fn takes_from(entry: &Entry, position: usize, other: &Entry) -> bool
    ensures { result ≡ spec.takes_from (entry_of entry.now) position (entry_of other.now) }
{
    match entry {
        Entry::Step(step) => is_source(position, &step.sources),
        Entry::Send(message) => learns(other, message),
        Entry::Learn(message, how) => is_learnt_from(message, how, position, other),
    }
}

// Whether what the entry takes is facts.
fn takes_facts(entry: &Entry) -> bool
    ensures { result ≡ spec.takes_facts (entry_of entry.now) }
{
    match entry {
        Entry::Step(_) => true,
        Entry::Send(_) | Entry::Learn(_, _) => false,
    }
}

// Adds the edges to the entry behind these.
fn push_edges_to(out: &mut Vec<Edge>, entry: &Entry, earlier: &[Entry]) -> Result<(), AllocError>
    ensures { OnOk result (map edge_of out.new.items ≡ map edge_of out.old.items ++ spec.edges_to (entry_of entry.now) (map entry_of earlier.now)) }
{
    let is_fact = takes_facts(entry);
    for (from, other) in earlier.iter().enumerate() {
        if takes_from(entry, from, other) {
            let to = earlier.len();
            out.push(Edge { from, is_fact, to })?;
        }
    }
    Ok(())
}

/// The edges of a log with these entries, by where they lead to, and then by where they come from, each once.
///
/// # Errors
///
/// `AllocError` where memory is wanting.
pub fn edges(alloc: Global, entries: &Vec<Entry>) -> Result<Vec<Edge>, AllocError>
    ensures { IfOk result (λ es. map edge_of es.items ≡ spec.edges (map entry_of entries.now.items)) }
{
    let mut out = Vec::new(alloc);
    for (to, entry) in entries.iter().enumerate() {
        push_edges_to(&mut out, entry, &entries[..to])?;
    }
    Ok(out)
}
