// The execution of a learning log: what its rules do, and what the adversary does to learn and to send.

ghost use Rattle.std.specs.Prelude.{◌≡◌, ◌++◌, ◌∷◌, [], IfOk, OnOk, if◌then◌else◌, map};
ghost use Rattle.sp_spec.specs.Execution as execution;
ghost use Rattle.sp_spec.specs.Lists.{newest_first};
ghost use Rattle.sp_spec.specs.Log as learning;
ghost use Rattle.sp_spec.specs.Theory as theory;
ghost use Rattle.sp_spec_forms.specs.Forms.{forms_of};
ghost use Rattle.sp_law_log_steps.specs.Execution.{IsExecutionWith};
ghost use Rattle.sp_law_log_execution.specs.Executed as spec;
ghost use Rattle.sp_law_log_execution.specs.Laws.{IsRunnable};
ghost use Rattle.sp_fact.specs.GroundView.{equation_of, ground_of, signature_of, step_of};
ghost use Rattle.sp_book.specs.View.{rule_forms_of};
ghost use Rattle.sp_learn.specs.View as view;
ghost use Rattle.sp_learn.specs.View.{entry_of, how_of};
ghost use Rattle.sp_transfer.specs.Executing.{linking_in};
ghost use Rattle.sp_transfer.specs.View.{log_in};

use crate::chain::add_chain;
use crate::way::{Linking, linking_of};
use sp_book::book::RuleBook;
use sp_book::form::RuleForms;
use sp_fact::ground_term::GroundTerm;
use sp_fact::signature::{Equation, Signature};
use sp_fact::step::Step;
use sp_learn::log::{Entry, How, Log, learnt_in};
use sp_log::execution::add_steps;
use sp_term::term::{Term, copied};
use std::alloc::{AllocError, Global};

// Whether the entry learns by a chain from that conclusion of the step at the position.
fn takes_from(entry: &Entry, position: usize, place: usize) -> bool
    ensures { result ≡ spec.takes_from (entry_of entry.now) position place }
{
    match entry {
        Entry::Learn(
            _,
            How::Chain {
                step,
                conclusion,
                ..
            },
        ) => *step == position && *conclusion == place,
        _ => false,
    }
}

// Whether one of the entries does.
fn is_taken(earlier: &[Entry], position: usize, place: usize) -> bool
    ensures { result ≡ spec.is_taken (log_in earlier.now) position place }
{
    for entry in earlier {
        if takes_from(entry, position, place) {
            return true;
        }
    }
    false
}

// What was put out is taken, unless it was before.
fn add_taking(
    earlier: &[Entry],
    conclusion: (usize, usize),
    message: &GroundTerm,
    steps: &mut Vec<Step>,
) -> Result<(), AllocError>
    ensures { OnOk result (map step_of steps.new.items ≡ map step_of steps.old.items
        ++ (if spec.is_taken (log_in earlier.now) conclusion.0 conclusion.1 then [] else execution.take_out (ground_of message.now) ∷ [])) }
{
    if !is_taken(earlier, conclusion.0, conclusion.1) {
        steps.push(Step::TakeOut(message.clone()?))?;
    }
    Ok(())
}

// Adds the steps along the chain from what a step puts out.
fn add_from_out(
    alloc: Global,
    linking: &Linking,
    earlier: &[Entry],
    conclusion: (usize, usize),
    messages: &Vec<GroundTerm>,
    steps: &mut Vec<Step>,
) -> Result<(), AllocError>
    ensures { OnOk result (map step_of steps.new.items ≡ map step_of steps.old.items
        ++ newest_first (spec.from_out (linking_in linking.now) (log_in earlier.now) conclusion.0 conclusion.1 (map ground_of messages.now.items))) }
{
    let Some((first, rest)) = messages.split_first() else {
        return Ok(());
    };
    let learnt = learnt_in(alloc, earlier)?;
    add_taking(earlier, conclusion, first, steps)?;
    add_chain(alloc, linking, &learnt, first, rest, steps)
}

// Adds the step that makes the message, if it is an application.
fn add_making(message: &GroundTerm, steps: &mut Vec<Step>) -> Result<(), AllocError>
    ensures { OnOk result (map step_of steps.new.items ≡ map step_of steps.old.items ++ spec.making (ground_of message.now)) }
{
    if let Term::App(symbol, terms, _) = message {
        let name = symbol.clone()?;
        let applied = copied(terms)?;
        steps.push(Step::ApplySymbol(name, applied))?;
    }
    Ok(())
}

// Adds the steps by which the name is made and known.
fn add_own(message: &GroundTerm, steps: &mut Vec<Step>) -> Result<(), AllocError>
    ensures { OnOk result (map step_of steps.new.items
        ≡ map step_of steps.old.items ++ execution.make_fresh (ground_of message.now) ∷ execution.make_own (ground_of message.now) ∷ []) }
{
    steps.push(Step::MakeFresh(message.clone()?))?;
    steps.push(Step::MakeOwn(message.clone()?))?;
    Ok(())
}

// Adds the steps by which the message is learnt in that way.
fn add_learning(
    alloc: Global,
    linking: &Linking,
    earlier: &[Entry],
    message: &GroundTerm,
    how: &How,
    steps: &mut Vec<Step>,
) -> Result<(), AllocError>
    ensures { OnOk result (map step_of steps.new.items ≡ map step_of steps.old.items
        ++ newest_first (spec.learning (linking_in linking.now) (log_in earlier.now) (ground_of message.now) (how_of how.now))) }
{
    match how {
        How::PublicName => {
            steps.push(Step::KnowPublic(message.clone()?))?;
            Ok(())
        }
        How::OwnName => add_own(message, steps),
        How::Constructed => add_making(message, steps),
        How::Chain {
            step,
            conclusion,
            messages,
        } => add_from_out(
            alloc,
            linking,
            earlier,
            (*step, *conclusion),
            messages,
            steps,
        ),
    }
}

// Adds the steps of the entry behind these.
fn add_entry_steps(
    alloc: Global,
    equations: &Vec<Equation>,
    rules: &Vec<RuleForms>,
    linking: &Linking,
    earlier: &[Entry],
    entry: &Entry,
    steps: &mut Vec<Step>,
) -> Result<(), AllocError>
    ensures { OnOk result (map step_of steps.new.items ≡ map step_of steps.old.items
        ++ newest_first (spec.executed_entry (map equation_of equations.now.items) (map rule_forms_of rules.now.items) (linking_in linking.now)
        (log_in earlier.now) (entry_of entry.now))) }
{
    match entry {
        Entry::Step(step) => add_steps(alloc, equations, rules, step, steps),
        Entry::Send(message) => {
            steps.push(Step::PutIn(message.clone()?))?;
            Ok(())
        }
        Entry::Learn(message, how) => add_learning(alloc, linking, earlier, message, how, steps),
    }
}

// The steps of the entries, one after the other.
fn steps_of(
    alloc: Global,
    signature: &Signature,
    rules: &Vec<RuleForms>,
    entries: &Vec<Entry>,
) -> Result<Vec<Step>, AllocError>
    ensures { IfOk result (λ ss. newest_first (map step_of ss.items) ≡ spec.executed_by (map equation_of signature.now.equations.items)
        (map rule_forms_of rules.now.items) (spec.linking_of (signature_of signature.now)) (log_in entries.now.items)) }
{
    let linking = linking_of(alloc, signature)?;
    let mut steps = Vec::new(alloc);
    for (number, entry) in entries.iter().enumerate() {
        add_entry_steps(
            alloc,
            &signature.equations,
            rules,
            &linking,
            &entries[..number],
            entry,
            &mut steps,
        )?;
    }
    Ok(steps)
}

/// The steps that the learning log stands for, the oldest first. Of a log they are an execution, whose trace has the log's visible trace as its normal form.
///
/// Along a chain each link is by the least destruction and the least places of side messages. Of entries that are no log there are steps too, of which
/// nothing more is said.
///
/// # Errors
///
/// `AllocError` where memory is wanting.
pub fn to_execution(
    alloc: Global,
    signature: &Signature,
    rules: &RuleBook,
    log: &Log,
) -> Result<Vec<Step>, AllocError>
    ensures exact { IfOk result (λ ss. newest_first (map step_of ss.items) ≡ spec.executed_by (map equation_of signature.now.equations.items)
        (map rule_forms_of rules.now.rules.items) (spec.linking_of (signature_of signature.now)) (view.log_of log.now)) }
    ensures means { (t : theory.Theory) → IsRunnable t → map (forms_of (theory.signature_of t).equations) t.rules ≡ map rule_forms_of rules.now.rules.items
        → theory.signature_of t ≡ signature_of signature.now → learning.IsLog t (view.log_of log.now)
        → IfOk result (λ ss. IsExecutionWith t (newest_first (map step_of ss.items)) (learning.visible_trace (view.log_of log.now))) }
{
    let steps = steps_of(alloc, signature, &rules.rules, &log.entries)?;
    Ok(steps)
}
