// The lines of a learning log.

ghost use Rattle.std.specs.Prelude.{◌≡◌, ◌++◌, IfOk, OnOk, codes, map, string_bytes};
ghost use Rattle.sp_fact.specs.GroundView.{equation_of, ground_of};
ghost use Rattle.sp_book.specs.View.{rule_forms_of};
ghost use Rattle.sp_log.specs.View as log;
ghost use Rattle.sp_learn.specs.View.{entry_of, how_of};
ghost use Rattle.sp_spec_printed.specs.Printed.{term_text};
ghost use Rattle.sp_show.specs.Numbers.{HasNames, numbered_names};
ghost use Rattle.sp_spec_log_lines.specs.Line as spec;
ghost use Rattle.sp_show_log.specs.Given.{given_among};
ghost use Rattle.sp_show_log.specs.Numbers.{LineHasNames};

use sp_book::form::RuleForms;
use sp_fact::ground_term::GroundTerm;
use sp_fact::signature::Equation;
use sp_learn::log::{Entry, How};
use sp_log::execution::add_steps;
use sp_log::log::Entry as StepEntry;
use sp_show::step::step_line;
use sp_show::term::write_term;
use std::alloc::{AllocError, Global};

/// The line of a step: of the steps of an execution that it stands for, the last one uses its rule.
fn rule_line(
    alloc: Global,
    equations: &Vec<Equation>,
    rules: &Vec<RuleForms>,
    entry: &StepEntry,
) -> Result<String, AllocError>
    ensures text { IfOk result (λ text. string_bytes text
        ≡ spec.log_line (given_among (map equation_of equations.now.items) (map rule_forms_of rules.now.items)) (log.entry_of entry.now)) }
    ensures numbered { OnOk result (LineHasNames numbered_names
        (spec.line_of (given_among (map equation_of equations.now.items) (map rule_forms_of rules.now.items)) (log.entry_of entry.now))) }
{
    let mut steps = Vec::new(alloc);
    add_steps(alloc, equations, rules, entry, &mut steps)?;
    match steps.last() {
        Some(step) => step_line(alloc, step),
        None => Ok(String::new(alloc)),
    }
}

/// A word and a message.
fn message_line(alloc: Global, word: &str, message: &GroundTerm) -> Result<String, AllocError>
    ensures text { IfOk result (λ text. string_bytes text ≡ word.now ++ term_text (ground_of message.now)) }
    ensures numbered { OnOk result (HasNames numbered_names (ground_of message.now)) }
{
    let mut out = String::from_str(alloc, word)?;
    write_term(&mut out, message)?;
    Ok(out)
}

/// The word for how a message was learnt.
fn way_word(how: &How) -> &str
    ensures { result.now ≡ spec.way_text (spec.way_of (how_of how.now)) }
{
    match how {
        How::PublicName => "pub",
        How::OwnName => "own",
        How::Constructed => "made",
        How::Chain { .. } => "chain",
    }
}

/// The line of a message that was learnt.
fn learn_line(alloc: Global, message: &GroundTerm, how: &How) -> Result<String, AllocError>
    ensures text { IfOk result (λ text. string_bytes text ≡ spec.line_text (spec.learn_line (ground_of message.now) (spec.way_of (how_of how.now)))) }
    ensures numbered { OnOk result (HasNames numbered_names (ground_of message.now)) }
{
    let mut out = message_line(alloc, "learn ", message)?;
    out.push_str(" (")?;
    out.push_str(way_word(how))?;
    out.push_str(")")?;
    Ok(out)
}

/// The line of an entry, without its line feed. In that of a step stand the values that the first form of its rule gives of which the facts are an instance.
///
/// # Errors
///
/// `AllocError` where memory is wanting.
pub fn log_line(
    alloc: Global,
    equations: &Vec<Equation>,
    rules: &Vec<RuleForms>,
    entry: &Entry,
) -> Result<String, AllocError>
    ensures text { IfOk result (λ text. string_bytes text
        ≡ spec.log_line (given_among (map equation_of equations.now.items) (map rule_forms_of rules.now.items)) (entry_of entry.now)) }
    ensures numbered { OnOk result (LineHasNames numbered_names
        (spec.line_of (given_among (map equation_of equations.now.items) (map rule_forms_of rules.now.items)) (entry_of entry.now))) }
{
    match entry {
        Entry::Step(step) => rule_line(alloc, equations, rules, step),
        Entry::Send(message) => message_line(alloc, "send ", message),
        Entry::Learn(message, how) => learn_line(alloc, message, how),
    }
}
