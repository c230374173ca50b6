// The checking of learning logs.

ghost use Rattle.std.specs.Prelude.{◌≡◌, ◌∷◌, [], ◌++◌, IfOk, None, map, true};
ghost use Rattle.sp_spec.specs.Destruction as spec_destruction;
ghost use Rattle.sp_spec.specs.Log.{fresh_uses, learn};
ghost use Rattle.sp_spec.specs.Same.{same_term};
ghost use Rattle.sp_spec.specs.Theory as spec_theory;
ghost use Rattle.sp_spec_forms.specs.Forms.{forms_of};
ghost use Rattle.sp_law_equal.specs.RightTheory.{HasNormalInstances};
ghost use Rattle.sp_fact.specs.GroundView.{ground_of, signature_of};
ghost use Rattle.sp_book.specs.View.{rule_forms_of};
ghost use Rattle.sp_destruct.specs.View.{destruction_of};
ghost use Rattle.sp_log.specs.Checking.{are_new};
ghost use Rattle.sp_log.specs.View as steps;
ghost use Rattle.sp_learn.specs.Learning.{learnt_in};
ghost use Rattle.sp_learn.specs.Checking as spec;
ghost use Rattle.sp_learn.specs.Laws.{ChecksAreOne, LogsAreChecked};
ghost use Rattle.sp_learn.specs.Meaning.{IsChecked};
ghost use Rattle.sp_learn.specs.View.{IsUsed, entries_of, entry_of, how_of};

use crate::learning::{chain_is_new, is_chain, is_made, is_made_alone};
use crate::log::{Entry, How, Log};
use crate::sources::have_sources;
use sp_book::form::RuleForms;
use sp_destruct::destruction::{Destruction, chains_of};
use sp_fact::ground_term::GroundTerm;
use sp_fact::signature::Signature;
use sp_log::check::{names_are_new, sources_are_new, step_is_instance};
use sp_log::log::{Entry as StepEntry, Source};
use sp_log::names::is_one_of;
use sp_term::term::{Sort, has_sort};
use std::alloc::{AllocError, Global};
use thiserror::Error;

/// What a log owes of each entry, by the definition of logs.
#[derive(Clone, Copy, Debug, PartialEq, Eq, Error)]
pub enum Clause {
    /// a step is an instance of a rule of its name, in normal form
    #[error("the step is no instance of a rule of its name in normal form")]
    Instance,
    /// its premises have their sources in earlier entries, and no linear source is named twice
    #[error("a premise has no source in the entries before, or its source is named twice")]
    Sources,
    /// no fresh name is used twice
    #[error("a fresh name is used twice")]
    Freshness,
    /// what is sent is learnt
    #[error("the message is sent before it is learnt")]
    SentLearnt,
    /// what is learnt wasn't yet
    #[error("the message was learnt before")]
    LearntOnce,
    /// and may be learnt in that way
    #[error("the message cannot be learnt in this way")]
    Way,
    /// what is made alone is learnt by no chain
    #[error("the message can be made, and is learnt by a chain")]
    MadeAlone,
    /// no message of a chain was learnt before the chain's step
    #[error("a message of the chain was learnt before the chain's step")]
    ChainIsNew,
}

/// What the checking of a log answers.
#[derive(Clone, Copy, Debug, PartialEq, Eq)]
pub enum Checked {
    /// it is a log
    Fine,
    /// the first entry, counted from 0, that breaks a clause, and the least that it breaks
    Fails(usize, Clause),
}

/// What the entries before have used and learnt.
#[derive(Drop)]
pub struct Used {
    /// the linear sources that they named
    pub sources: Vec<Source>,
    /// the names whose Fr they used
    pub names: Vec<GroundTerm>,
    /// the messages that they learnt
    pub learnt: Vec<GroundTerm>,
}

// The least clause that a step breaks.
fn broken_step(
    alloc: Global,
    signature: &Signature,
    rules: &Vec<RuleForms>,
    earlier: &[Entry],
    step: &StepEntry,
    used: &mut Used,
) -> Result<Option<Clause>, AllocError>
    requires { IsUsed used.old (map entry_of earlier.now) }
    ensures tests { IfOk result (λ o. o
        ≡ spec.broken (signature_of signature.now) (map rule_forms_of rules.now.items) (map entry_of earlier.now) (steps.entry_of step.now)) }
    ensures adds { IfOk result (λ o. o ≡ None → IsUsed used.new (map entry_of earlier.now ++ steps.entry_of step.now ∷ [])) }
{
    if !step_is_instance(alloc, signature, rules, step)? {
        return Ok(Some(Clause::Instance));
    }
    if !have_sources(earlier, &step.facts.premises, &step.sources) {
        return Ok(Some(Clause::Sources));
    }
    if !sources_are_new(alloc, step, &mut used.sources)? {
        return Ok(Some(Clause::Sources));
    }
    if !names_are_new(alloc, step, &mut used.names)? {
        return Ok(Some(Clause::Freshness));
    }
    Ok(None)
}

// Whether what is learnt is no fresh name of the adversary's own that was used; such a name is used then.
fn name_is_new(
    message: &GroundTerm,
    how: &How,
    names: &mut Vec<GroundTerm>,
) -> Result<bool, AllocError>
    ensures tests { IfOk result (λ b. b ≡ are_new same_term (map ground_of names.old.items) (fresh_uses (learn (ground_of message.now) (how_of how.now)))) }
    ensures adds { IfOk result (λ b. b ≡ true
        → map ground_of names.new.items ≡ map ground_of names.old.items ++ fresh_uses (learn (ground_of message.now) (how_of how.now))) }
{
    if let How::OwnName = how {
        if is_one_of(names, message) {
            return Ok(false);
        }
        names.push(message.clone()?)?;
    }
    Ok(true)
}

// Whether the message may be learnt in that way.
fn way_is_right(
    alloc: Global,
    signature: &Signature,
    destructions: &Vec<Destruction>,
    learnt: &Vec<GroundTerm>,
    earlier: &[Entry],
    message: &GroundTerm,
    how: &How,
) -> Result<bool, AllocError>
    requires are_learnt { map ground_of learnt.now.items ≡ learnt_in (map entry_of earlier.now) }
    requires are_all { map destruction_of destructions.now.items ≡ spec_destruction.destructions (signature_of signature.now) }
    ensures { IfOk result (λ b. b
        ≡ spec.way_is_right (signature_of signature.now) (learn (ground_of message.now) (how_of how.now)) (map entry_of earlier.now)) }
{
    match how {
        How::PublicName => Ok(has_sort(Sort::Pub, message)),
        How::OwnName => Ok(has_sort(Sort::Fresh, message)),
        How::Constructed => is_made(alloc, signature, learnt, message),
        How::Chain {
            step,
            conclusion,
            messages,
        } => is_chain(
            alloc,
            destructions,
            learnt,
            earlier,
            (*step, *conclusion),
            messages,
            message,
        ),
    }
}

// Whether what a chain gives isn't made alone.
fn chain_is_wanted(signature: &Signature, message: &GroundTerm, how: &How) -> bool
    ensures { result ≡ spec.chain_is_wanted (signature_of signature.now) (learn (ground_of message.now) (how_of how.now)) }
{
    match how {
        How::Chain { .. } => !is_made_alone(signature, message),
        _ => true,
    }
}

// Whether no message of a chain was learnt before the chain's step.
fn has_new_chain(
    alloc: Global,
    earlier: &[Entry],
    message: &GroundTerm,
    how: &How,
) -> Result<bool, AllocError>
    ensures { IfOk result (λ b. b ≡ spec.chain_is_new (learn (ground_of message.now) (how_of how.now)) (map entry_of earlier.now)) }
{
    match how {
        How::Chain { step, messages, .. } => chain_is_new(alloc, earlier, *step, messages),
        _ => Ok(true),
    }
}

// The least clause on the way of learning that what is learnt breaks.
fn broken_way(
    alloc: Global,
    signature: &Signature,
    destructions: &Vec<Destruction>,
    learnt: &Vec<GroundTerm>,
    earlier: &[Entry],
    message: &GroundTerm,
    how: &How,
) -> Result<Option<Clause>, AllocError>
    requires are_learnt { map ground_of learnt.now.items ≡ learnt_in (map entry_of earlier.now) }
    requires are_all { map destruction_of destructions.now.items ≡ spec_destruction.destructions (signature_of signature.now) }
    ensures { IfOk result (λ o. o ≡ spec.first_failing
        (spec.keeps (signature_of signature.now) [] (map entry_of earlier.now) (learn (ground_of message.now) (how_of how.now)))
        (Clause.Way ∷ Clause.MadeAlone ∷ Clause.ChainIsNew ∷ [])) }
{
    if !way_is_right(
        alloc,
        signature,
        destructions,
        learnt,
        earlier,
        message,
        how,
    )? {
        return Ok(Some(Clause::Way));
    }
    if !chain_is_wanted(signature, message, how) {
        return Ok(Some(Clause::MadeAlone));
    }
    if !has_new_chain(alloc, earlier, message, how)? {
        return Ok(Some(Clause::ChainIsNew));
    }
    Ok(None)
}

// The least clause that what is learnt breaks; it has nothing to do with rules.
fn broken_learn(
    alloc: Global,
    signature: &Signature,
    destructions: &Vec<Destruction>,
    earlier: &[Entry],
    message: &GroundTerm,
    how: &How,
    used: &mut Used,
) -> Result<Option<Clause>, AllocError>
    requires are_used { IsUsed used.old (map entry_of earlier.now) }
    requires are_all { map destruction_of destructions.now.items ≡ spec_destruction.destructions (signature_of signature.now) }
    ensures tests { IfOk result (λ o. o
        ≡ spec.broken (signature_of signature.now) [] (map entry_of earlier.now) (learn (ground_of message.now) (how_of how.now))) }
    ensures adds { IfOk result (λ o. o ≡ None
        → IsUsed used.new (map entry_of earlier.now ++ learn (ground_of message.now) (how_of how.now) ∷ [])) }
{
    if !name_is_new(message, how, &mut used.names)? {
        return Ok(Some(Clause::Freshness));
    }
    if is_one_of(&used.learnt, message) {
        return Ok(Some(Clause::LearntOnce));
    }
    let clause = broken_way(
        alloc,
        signature,
        destructions,
        &used.learnt,
        earlier,
        message,
        how,
    )?;
    used.learnt.push(message.clone()?)?;
    Ok(clause)
}

// The least clause that the entry breaks behind these.
fn broken(
    alloc: Global,
    signature: &Signature,
    rules: &Vec<RuleForms>,
    destructions: &Vec<Destruction>,
    earlier: &[Entry],
    entry: &Entry,
    used: &mut Used,
) -> Result<Option<Clause>, AllocError>
    requires are_used { IsUsed used.old (map entry_of earlier.now) }
    requires are_all { map destruction_of destructions.now.items ≡ spec_destruction.destructions (signature_of signature.now) }
    ensures tests { IfOk result (λ o. o
        ≡ spec.broken (signature_of signature.now) (map rule_forms_of rules.now.items) (map entry_of earlier.now) (entry_of entry.now)) }
    ensures adds { IfOk result (λ o. o ≡ None → IsUsed used.new (map entry_of earlier.now ++ entry_of entry.now ∷ [])) }
{
    match entry {
        Entry::Step(step) => broken_step(alloc, signature, rules, earlier, step, used),
        Entry::Send(message) => {
            if !is_one_of(&used.learnt, message) {
                return Ok(Some(Clause::SentLearnt));
            }
            Ok(None)
        }
        Entry::Learn(message, how) => {
            broken_learn(alloc, signature, destructions, earlier, message, how, used)
        }
    }
}

// The first entry that breaks a clause.
fn first_broken(
    alloc: Global,
    signature: &Signature,
    rules: &Vec<RuleForms>,
    entries: &Vec<Entry>,
) -> Result<Checked, AllocError>
    ensures { IfOk result (λ c. c ≡ spec.check_of (signature_of signature.now) (map rule_forms_of rules.now.items) (map entry_of entries.now.items)) }
{
    let destructions = chains_of(alloc, signature)?;
    let mut used = Used {
        sources: Vec::new(alloc),
        names: Vec::new(alloc),
        learnt: Vec::new(alloc),
    };
    for (number, entry) in entries.iter().enumerate() {
        let earlier = &entries[..number];
        if let Some(clause) = broken(
            alloc,
            signature,
            rules,
            &destructions,
            earlier,
            entry,
            &mut used,
        )? {
            return Ok(Checked::Fails(number, clause));
        }
    }
    Ok(Checked::Fine)
}

/// Whether the entries are a log of the theory with the rules of these forms over the signature, or the first that isn't one behind those before it.
///
/// # Errors
///
/// `AllocError` where memory is wanting.
pub fn check_log(
    alloc: Global,
    signature: &Signature,
    rules: &Vec<RuleForms>,
    log: &Log,
) -> Result<Checked, AllocError>
    ensures exact { IfOk result (λ c. c ≡ spec.check_of (signature_of signature.now) (map rule_forms_of rules.now.items) (entries_of log.now)) }
    ensures means { (theory : spec_theory.Theory) → HasNormalInstances theory
        → map (forms_of (spec_theory.signature_of theory).equations) theory.rules ≡ map rule_forms_of rules.now.items
        → spec_theory.signature_of theory ≡ signature_of signature.now → IfOk result (λ c. IsChecked theory (entries_of log.now) c) }
{
    let answer = first_broken(alloc, signature, rules, &log.entries)?;
    Ok(answer)
}

/// Logs are what the test says.
pub fn logs_are_checked()
    ensures { LogsAreChecked }
{}

/// Of the same entries there is one answer.
pub fn checks_are_one()
    ensures { ChecksAreOne }
{}
