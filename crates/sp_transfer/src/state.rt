// The facts of a state, each with the source that the log has for it.

ghost use Rattle.std.specs.Prelude.{◌≡◌, ◌<◌, ◌++◌, ◌∷◌, [], IfOk, IfSome, OnOk, map, option_map, remove, vec_len};
ghost use Rattle.sp_fact.specs.GroundView.{ground_fact, step_of};
ghost use Rattle.sp_log.specs.View.{source_of};
ghost use Rattle.sp_transfer.specs.Construction as spec;
ghost use Rattle.sp_transfer.specs.Sourced.{all_taken, found, given_of, one_taken};

use sp_exec::taking::is_same;
use sp_fact::ground_fact::GroundFact;
use sp_fact::step::Step;
use sp_log::log::Source;
use std::alloc::{AllocError, Global};

/// A fact in normal form, with its source; what is made or known has none in the log.
#[derive(Drop)]
pub struct Given {
    /// the fact
    pub fact: GroundFact,
    /// where it comes from
    pub source: Source,
}

// The first place at which the fact stands, and its source there.
fn place_of(facts: &Vec<Given>, fact: &GroundFact) -> Option<(usize, Source)>
    ensures within { IfSome result (λ at. at.0 < vec_len facts.now) }
    ensures first { option_map (λ at. record { sources = source_of at.1 ∷ []; left = map given_of (remove facts.now.items at.0) }) result
        ≡ found (ground_fact fact.now) (map given_of facts.now.items) }
{
    for (place, other) in facts.iter().enumerate() {
        if is_same(fact, &other.fact) {
            return Some((place, other.source));
        }
    }
    None
}

// Takes the fact, if it is there, and tells its source; a persistent one stays.
fn take_one(facts: &mut Vec<Given>, fact: &GroundFact) -> Option<Source>
    ensures { one_taken result facts.new.items ≡ spec.take_one (ground_fact fact.now) (map given_of facts.old.items) }
{
    match place_of(facts, fact) {
        Some((place, source)) => {
            if !fact.persistent {
                facts.remove(place);
            }
            Some(source)
        }
        None => None,
    }
}

/// Takes these facts, one after the other, if they are there, and tells their sources.
pub fn take_all(
    alloc: Global,
    facts: &mut Vec<Given>,
    premises: &Vec<GroundFact>,
) -> Result<Option<Vec<Source>>, AllocError>
    ensures { IfOk result (λ o. all_taken o facts.new.items ≡ spec.take_all (map ground_fact premises.now.items) (map given_of facts.old.items)) }
{
    let mut sources = Vec::with_capacity(alloc, premises.len())?;
    for premise in premises {
        match take_one(facts, premise) {
            Some(source) => sources.push(source)?,
            None => return Ok(None),
        }
    }
    Ok(Some(sources))
}

// Adds the conclusions of the entry at the position.
fn add_concluded(
    facts: &mut Vec<Given>,
    position: usize,
    conclusions: &Vec<GroundFact>,
) -> Result<(), AllocError>
    ensures { OnOk result (map given_of facts.new.items ≡ map given_of facts.old.items ++ spec.concluded position 0 (map ground_fact conclusions.now.items)) }
{
    for (place, conclusion) in conclusions.iter().enumerate() {
        let fact = conclusion.clone()?;
        let source = Source::Conclusion(position, place);
        facts.push(Given { fact, source })?;
    }
    Ok(())
}

// Adds what has no entry.
fn add_without_source(
    facts: &mut Vec<Given>,
    conclusions: &Vec<GroundFact>,
) -> Result<(), AllocError>
    ensures { OnOk result (map given_of facts.new.items ≡ map given_of facts.old.items ++ spec.without_source (map ground_fact conclusions.now.items)) }
{
    for conclusion in conclusions {
        let fact = conclusion.clone()?;
        let source = Source::FreshRule;
        facts.push(Given { fact, source })?;
    }
    Ok(())
}

/// Adds what the step concludes, whose entry stands at the position if it has one.
pub fn add(
    alloc: Global,
    facts: &mut Vec<Given>,
    step: &Step,
    position: usize,
    conclusions: &Vec<GroundFact>,
) -> Result<(), AllocError>
    ensures { OnOk result (map given_of facts.new.items
        ≡ map given_of facts.old.items ++ spec.added (step_of step.now) position (map ground_fact conclusions.now.items)) }
{
    match step {
        Step::UseRule(_, _) | Step::PutIn(_) => add_concluded(facts, position, conclusions),
        _ => add_without_source(facts, conclusions),
    }
}
