// The sources of premises: whether an entry gives them, and whether they are new.

ghost use Rattle.std.specs.Prelude.{◌≡◌, ◌++◌, IfOk, Some, map, true};
ghost use Rattle.sp_spec.specs.Log as log;
ghost use Rattle.sp_law_run.specs.Taken.{same_fact};
ghost use Rattle.sp_fact.specs.GroundView.{ground_fact};
ghost use Rattle.sp_log.specs.Checking as spec;
ghost use Rattle.sp_log.specs.View.{entry_of, source_of};

use crate::log::{Entry, Source};
use sp_fact::ground_fact::GroundFact;
use sp_term::term::all_same;
use std::alloc::{AllocError, Global};

/// Whether the premise is the Fr of a fresh name.
pub fn is_fresh(fact: &GroundFact) -> bool
    ensures { result ≡ log.is_fr (ground_fact fact.now) }
{
    fact.symbol.text.as_str() == "Fr" && !fact.persistent
}

fn is_same(a: &GroundFact, b: &GroundFact) -> bool
    ensures { result ≡ same_fact (ground_fact a.now) (ground_fact b.now) }
{
    a.symbol == b.symbol && a.persistent == b.persistent && all_same(&a.args, &b.args)
}

/// Whether the entry gives the fact as its conclusion of the place.
pub fn concludes(entry: &Entry, place: usize, fact: &GroundFact) -> bool
    ensures { result ≡ spec.concludes (Some (entry_of entry.now)) place (ground_fact fact.now) }
{
    match entry.facts.conclusions.get(place) {
        Some(conclusion) => is_same(conclusion, fact),
        None => false,
    }
}

/// The sources of the linear premises.
pub fn linear_sources(
    alloc: Global,
    premises: &Vec<GroundFact>,
    sources: &Vec<Source>,
) -> Result<Vec<Source>, AllocError>
    ensures { IfOk result (λ os. map source_of os.items
        ≡ log.linear_sources (map ground_fact premises.now.items) (map source_of sources.now.items)) }
{
    let mut named = Vec::new(alloc);
    for (premise, source) in premises.iter().zip(sources) {
        if let Source::Conclusion(_, _) = source {
            if !premise.persistent {
                named.push(*source)?;
            }
        }
    }
    Ok(named)
}

fn is_same_source(a: &Source, b: &Source) -> bool
    ensures { result ≡ spec.same_source (source_of a.now) (source_of b.now) }
{
    match (a, b) {
        (Source::FreshRule, Source::FreshRule) => true,
        (Source::Conclusion(p, k), Source::Conclusion(q, j)) => *p == *q && *k == *j,
        _ => false,
    }
}

fn is_one_of(sources: &Vec<Source>, source: &Source) -> bool
    ensures { result ≡ spec.is_one_of spec.same_source (map source_of sources.now.items) (source_of source.now) }
{
    for other in sources {
        if is_same_source(other, source) {
            return true;
        }
    }
    false
}

/// Adds the sources to those that were named, if none of them is named twice; what was added stays where the answer is no.
pub fn name_sources(named: &mut Vec<Source>, sources: &Vec<Source>) -> Result<bool, AllocError>
    ensures tests { IfOk result (λ b. b ≡ spec.are_new spec.same_source (map source_of named.old.items) (map source_of sources.now.items)) }
    ensures adds { IfOk result (λ b. b ≡ true → map source_of named.new.items ≡ map source_of named.old.items ++ map source_of sources.now.items) }
{
    for source in sources {
        if is_one_of(named, source) {
            return Ok(false);
        }
        named.push(*source)?;
    }
    Ok(true)
}
