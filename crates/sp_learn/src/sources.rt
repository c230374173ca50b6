// What earlier entries give: the sources of premises, and the messages that steps put out.

ghost use Rattle.std.specs.Prelude.{◌≡◌, Some, false, map, slice_get};
ghost use Rattle.sp_spec.specs.Term.{more, none};
ghost use Rattle.sp_law_run.specs.Taken.{same_fact};
ghost use Rattle.sp_spec.specs.Same.{same_terms};
ghost use Rattle.sp_fact.specs.GroundView.{ground_fact, ground_of, grounds_of};
ghost use Rattle.sp_log.specs.Checking as steps;
ghost use Rattle.sp_log.specs.View.{source_of};
ghost use Rattle.sp_learn.specs.Learning as spec;
ghost use Rattle.sp_learn.specs.View.{entry_of};

use crate::log::Entry;
use sp_fact::ground_fact::GroundFact;
use sp_fact::ground_term::GroundTerm;
use sp_log::log::Source;
use sp_log::sources;
use sp_term::term::same;

// Whether the terms are this one alone.
fn are_just(terms: &Vec<GroundTerm>, term: &GroundTerm) -> bool
    ensures { result ≡ same_terms (grounds_of terms.now.items) (more (ground_of term.now) none) }
{
    match terms.as_slice() {
        [only] => same(only, term),
        _ => false,
    }
}

// Whether the fact is the linear one of this name over the message.
fn is_fact_of(fact: &GroundFact, symbol: &str, message: &GroundTerm) -> bool
    ensures { result ≡ same_fact (ground_fact fact.now) (record { symbol = symbol.now; persistent = false; args = more (ground_of message.now) none }) }
{
    fact.symbol.text.as_str() == symbol && !fact.persistent && are_just(&fact.args, message)
}

// Whether the entry gives the fact as its conclusion of the place.
fn concludes(entry: &Entry, place: usize, fact: &GroundFact) -> bool
    ensures { result ≡ steps.concludes (Some (entry_of entry.now)) place (ground_fact fact.now) }
{
    match entry {
        Entry::Step(step) => sources::concludes(step, place, fact),
        Entry::Send(message) => place == 0 && is_fact_of(fact, "In", message),
        Entry::Learn(_, _) => false,
    }
}

// Whether the premise has the source in these entries.
fn has_source(earlier: &[Entry], premise: &GroundFact, source: &Source) -> bool
    ensures { result ≡ steps.has_source (ground_fact premise.now) (source_of source.now) (map entry_of earlier.now) }
{
    match source {
        Source::FreshRule => sources::is_fresh(premise),
        Source::Conclusion(position, place) => {
            if sources::is_fresh(premise) {
                return false;
            }
            match earlier.get(*position) {
                Some(entry) => concludes(entry, *place, premise),
                None => false,
            }
        }
    }
}

/// Whether each premise has its source in these entries.
pub fn have_sources(earlier: &[Entry], premises: &Vec<GroundFact>, sources: &Vec<Source>) -> bool
    ensures { result ≡ steps.have_sources (map ground_fact premises.now.items) (map source_of sources.now.items) (map entry_of earlier.now) }
{
    if premises.len() != sources.len() {
        return false;
    }
    for (premise, source) in premises.iter().zip(sources) {
        if !has_source(earlier, premise, source) {
            return false;
        }
    }
    true
}

// Whether the entry is a step that puts out the message as its conclusion of the place.
fn entry_puts_out(entry: &Entry, place: usize, message: &GroundTerm) -> bool
    ensures { result ≡ spec.puts_out (Some (entry_of entry.now)) place (ground_of message.now) }
{
    match entry {
        Entry::Step(step) => match step.facts.conclusions.get(place) {
            Some(conclusion) => is_fact_of(conclusion, "Out", message),
            None => false,
        },
        _ => false,
    }
}

/// Whether the entry at the position is a step that puts out the message as its conclusion of the place.
pub fn puts_out(earlier: &[Entry], position: usize, place: usize, message: &GroundTerm) -> bool
    ensures { result ≡ spec.puts_out (slice_get (map entry_of earlier.now) position) place (ground_of message.now) }
{
    match earlier.get(position) {
        Some(entry) => entry_puts_out(entry, place, message),
        None => false,
    }
}
