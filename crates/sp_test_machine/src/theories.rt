// What theories and logs are made of that are written as texts.

use sp_book::book::RuleBook;
use sp_fact::ground_fact::GroundFacts;
use sp_fact::signature::Signature;
use sp_learn::check::{Checked, check_log};
use sp_learn::log::{Entry, How, Log};
use sp_learn::trace::{visible_trace, whole_trace};
use sp_log::log::{Entry as StepEntry, Source};
use sp_pose::{Read, posed_by};
use sp_show::trace::trace_block;
use sp_term::term::Name;
use sp_test_make::values::{ground_actions, ground_facts, ground_in, grounds_in};
use sp_variant::book::book;
use std::alloc::{AllocError, Global};
use std::test::Fail;

/// The signature of a theory, and its rules with their forms.
pub(crate) fn theory(alloc: Global, text: &str) -> Result<(Signature, RuleBook), Fail> {
    let Read::Posed(problem) = posed_by(alloc, text.as_bytes())? else {
        return Err("nothing is posed".into());
    };
    let signature = problem.signature;
    let book = book(alloc, &signature.equations, &problem.rules)?;
    Ok((signature, book))
}

/// An instance of a rule: the rule's name, and the facts that it takes, shows and gives.
#[derive(Clone, Copy)]
pub(crate) struct Instance {
    pub rule: &'static str,
    pub takes: &'static str,
    pub shows: &'static str,
    pub gives: &'static str,
}

/// An entry of a log, over messages as they are printed.
#[derive(Clone, Copy)]
pub(crate) enum Line {
    /// an instance, with the sources of what it takes
    Step(Instance, &'static [Source]),
    Send(&'static str),
    Public(&'static str),
    Own(&'static str),
    Made(&'static str),
    /// a message, out of the conclusion of the place of the step at the position, by this chain
    Chain(&'static str, usize, usize, &'static [&'static str]),
}

fn facts(alloc: Global, instance: Instance) -> Result<GroundFacts, Fail> {
    let premises = ground_facts(alloc, instance.takes)?;
    let actions = ground_actions(alloc, instance.shows)?;
    let conclusions = ground_facts(alloc, instance.gives)?;
    Ok(GroundFacts {
        premises,
        actions,
        conclusions,
    })
}

/// The step that is this instance, with these sources.
pub(crate) fn step(
    alloc: Global,
    instance: Instance,
    sources: &[Source],
) -> Result<StepEntry, Fail> {
    let facts = facts(alloc, instance)?;
    let rule = Name::new(alloc, instance.rule)?;
    let sources = Vec::from_slice(alloc, sources)?;
    Ok(StepEntry {
        rule,
        facts,
        sources,
    })
}

fn learnt(alloc: Global, message: &str, how: How) -> Result<Entry, Fail> {
    Ok(Entry::Learn(ground_in(alloc, message)?, how))
}

fn entry(alloc: Global, line: Line) -> Result<Entry, Fail> {
    match line {
        Line::Step(instance, sources) => Ok(Entry::Step(step(alloc, instance, sources)?)),
        Line::Send(message) => Ok(Entry::Send(ground_in(alloc, message)?)),
        Line::Public(message) => learnt(alloc, message, How::PublicName),
        Line::Own(message) => learnt(alloc, message, How::OwnName),
        Line::Made(message) => learnt(alloc, message, How::Constructed),
        Line::Chain(message, step, conclusion, messages) => {
            let messages = grounds_in(alloc, messages)?;
            let how = How::Chain {
                step,
                conclusion,
                messages,
            };
            learnt(alloc, message, how)
        }
    }
}

/// The log of these entries.
pub(crate) fn log(alloc: Global, lines: &[Line]) -> Result<Log, Fail> {
    let mut entries = Vec::new(alloc);
    for line in lines {
        entries.push(entry(alloc, *line)?)?;
    }
    Ok(Log { entries })
}

/// What the check answers on a copy of the log of these entries.
pub(crate) fn checked(
    alloc: Global,
    signature: &Signature,
    book: &RuleBook,
    lines: &[Line],
) -> Result<Checked, Fail> {
    let log = log(alloc, lines)?.clone()?;
    Ok(check_log(alloc, signature, &book.rules, &log)?)
}

/// The text of the log's whole trace.
pub(crate) fn whole_text(alloc: Global, log: &Log) -> Result<String, AllocError> {
    trace_block(alloc, &whole_trace(alloc, log)?)
}

/// The text of its visible trace.
pub(crate) fn visible_text(alloc: Global, log: &Log) -> Result<String, AllocError> {
    trace_block(alloc, &visible_trace(alloc, log)?)
}
