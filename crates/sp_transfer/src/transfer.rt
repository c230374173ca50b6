// The log of an execution: as its steps are done one after the other, each fact of the state keeps its source, and the adversary learns what it gets.

ghost use Rattle.std.specs.Prelude.{◌≡◌, IfOk, None, OnOk, Some, if◌then◌else◌, map, option_map};
ghost use Rattle.sp_spec.specs.Lists.{newest_first};
ghost use Rattle.sp_spec.specs.Execution.{IsExecution, Trace};
ghost use Rattle.sp_spec.specs.Theory as theory;
ghost use Rattle.sp_law_equal.specs.RightTheory.{IsRightTheory};
ghost use Rattle.sp_fact.specs.GroundView.{ground_facts, ground_of, signature_of, step_of, symbol_of};
ghost use Rattle.sp_fact.specs.View.{rule_of};
ghost use Rattle.sp_log.specs.View.{source_of};
ghost use Rattle.sp_learn.specs.View as view;
ghost use Rattle.sp_law_adversary.specs.Learning as learning;
ghost use Rattle.sp_transfer.specs.Construction as spec;
ghost use Rattle.sp_transfer.specs.Laws.{IsLogged};
ghost use Rattle.sp_transfer.specs.Steps.{followed_of};
ghost use Rattle.sp_transfer.specs.View.{log_in};

use crate::destructing::apply_symbol;
use crate::learning::{Chain, absorb, add_entry, learn};
use crate::state::{Given, add, take_all};
use sp_exec::instance::instance_of;
use sp_fact::ground_fact::GroundFacts;
use sp_fact::ground_term::GroundTerm;
use sp_fact::rule::Rule;
use sp_fact::signature::{Signature, Symbol};
use sp_fact::step::Step;
use sp_learn::log::{Entry, How, Log};
use sp_log::log::{Entry as StepEntry, Source};
use sp_norm::normal::{normal, normal_all, normal_facts};
use std::alloc::{AllocError, Global};

/// What the steps so far lead to.
#[derive(Drop)]
pub struct Followed {
    /// the facts of the state
    pub facts: Vec<Given>,
    /// the entries of the log, the oldest first
    pub entries: Vec<Entry>,
}

// What was put out is the beginning of a chain.
fn take_from(
    alloc: Global,
    symbols: &Vec<Symbol>,
    message: &GroundTerm,
    sources: &Vec<Source>,
    entries: &mut Vec<Entry>,
) -> Result<(), AllocError>
    ensures { OnOk result (log_in entries.new.items
        ≡ learning.taken_from (map symbol_of symbols.now.items) (ground_of message.now) (map source_of sources.now.items) (log_in entries.old.items)) }
{
    match sources.first() {
        Some(Source::Conclusion(position, place)) => {
            let mut messages = Vec::with_capacity(alloc, 1)?;
            messages.push(message.clone()?)?;
            let chain = Chain {
                position: *position,
                place: *place,
                messages,
            };
            absorb(alloc, symbols, &chain, message, entries)
        }
        _ => Ok(()),
    }
}

// The entries of the step, of which these are the facts in normal form, with the sources of its premises.
fn log_step(
    alloc: Global,
    signature: &Signature,
    step: &Step,
    facts: GroundFacts,
    sources: Vec<Source>,
    entries: &mut Vec<Entry>,
) -> Result<(), AllocError>
    ensures { OnOk result (log_in entries.new.items
        ≡ learning.logged (signature_of signature.now) (step_of step.now) (ground_facts facts) (map source_of sources.items) (log_in entries.old.items)) }
{
    match step {
        Step::MakeFresh(_) => Ok(()),
        Step::UseRule(name, _) => {
            let rule = name.clone()?;
            let entry = StepEntry {
                rule,
                facts,
                sources,
            };
            add_entry(entries, Entry::Step(entry))
        }
        Step::TakeOut(term) => {
            let message = normal(alloc, &signature.equations, term)?;
            take_from(alloc, &signature.symbols, &message, &sources, entries)
        }
        Step::PutIn(term) => {
            let message = normal(alloc, &signature.equations, term)?;
            add_entry(entries, Entry::Send(message))
        }
        Step::KnowPublic(term) => {
            let message = normal(alloc, &signature.equations, term)?;
            learn(entries, &message, How::PublicName)
        }
        Step::MakeOwn(term) => {
            let message = normal(alloc, &signature.equations, term)?;
            learn(entries, &message, How::OwnName)
        }
        Step::ApplySymbol(symbol, terms) => {
            let arguments = normal_all(alloc, &signature.equations, terms)?;
            apply_symbol(alloc, signature, symbol, arguments, entries)
        }
    }
}

// The step with these facts in normal form, if its premises are there.
fn follow_facts(
    alloc: Global,
    signature: &Signature,
    step: &Step,
    facts: GroundFacts,
    state: &mut Followed,
) -> Result<bool, AllocError>
    ensures { IfOk result (λ b. (if b then Some (followed_of state.new) else None)
        ≡ spec.with_facts (signature_of signature.now) (step_of step.now) (ground_facts facts) (followed_of state.old)) }
{
    let position = state.entries.len();
    match take_all(alloc, &mut state.facts, &facts.premises)? {
        Some(sources) => {
            add(alloc, &mut state.facts, step, position, &facts.conclusions)?;
            log_step(alloc, signature, step, facts, sources, &mut state.entries)?;
            Ok(true)
        }
        None => Ok(false),
    }
}

// One more step, if it can be done.
fn follow(
    alloc: Global,
    signature: &Signature,
    rules: &Vec<Rule>,
    step: &Step,
    state: &mut Followed,
) -> Result<bool, AllocError>
    ensures { IfOk result (λ b. (if b then Some (followed_of state.new) else None)
        ≡ spec.followed_by (signature_of signature.now) (map rule_of rules.now.items) (step_of step.now) (followed_of state.old)) }
{
    match instance_of(alloc, signature, rules, step)? {
        Ok(instance) => {
            let facts = normal_facts(alloc, &signature.equations, &instance.facts)?;
            follow_facts(alloc, signature, step, facts, state)
        }
        Err(_) => Ok(false),
    }
}

// The log of the steps, the oldest of which comes first, if each can be followed.
fn followed_log(
    alloc: Global,
    signature: &Signature,
    rules: &Vec<Rule>,
    steps: &Vec<Step>,
) -> Result<Option<Log>, AllocError>
    ensures { IfOk result (λ o. option_map view.log_of o ≡ option_map (λ f. f.log)
        (spec.followed (signature_of signature.now) (map rule_of rules.now.items) (newest_first (map step_of steps.now.items)))) }
{
    let mut state = Followed {
        facts: Vec::new(alloc),
        entries: Vec::new(alloc),
    };
    for step in steps {
        if !follow(alloc, signature, rules, step, &mut state)? {
            return Ok(None);
        }
    }
    Ok(Some(Log {
        entries: state.entries,
    }))
}

/// The learning log of an execution, whose steps have the oldest first. It shows the execution's trace in normal form, and passes the test of logs.
///
/// Of steps that are no execution there may be none, and nothing is said of what there is: sorts and the newness of names are not asked.
///
/// # Errors
///
/// `AllocError` where memory is wanting.
pub fn to_log(
    alloc: Global,
    signature: &Signature,
    rules: &Vec<Rule>,
    steps: &Vec<Step>,
) -> Result<Option<Log>, AllocError>
    ensures exact { IfOk result (λ o. option_map view.log_of o ≡ option_map (λ f. f.log)
        (spec.followed (signature_of signature.now) (map rule_of rules.now.items) (newest_first (map step_of steps.now.items)))) }
    ensures means { (t : theory.Theory) → IsRightTheory t → t.rules ≡ map rule_of rules.now.items → theory.signature_of t ≡ signature_of signature.now
        → (trace : Trace) → IsExecution t (newest_first (map step_of steps.now.items)) trace → IfOk result (λ o. IsLogged t trace (option_map view.entries_of o)) }
{
    let log = followed_log(alloc, signature, rules, steps)?;
    Ok(log)
}
