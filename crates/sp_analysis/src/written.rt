// The text with the proofs, and the summary.

ghost use Rattle.std.specs.Prelude.{◌≡◌, ◌≤◌, ◌++◌, IfOk, OnOk, codes, length, map, string_bytes};
ghost use Rattle.sp_check.specs.View.{clause_of};
ghost use Rattle.sp_written.specs.Views as view;
ghost use Rattle.sp_spec_text.specs.Spans as places;
ghost use Rattle.sp_spec_text.specs.Spans.{Rise};
ghost use Rattle.sp_spec_printed.specs.Kind as kinds;
ghost use Rattle.sp_spec_printed.specs.Verdict as spec;
ghost use Rattle.sp_law_reread.specs.Again.{between};
ghost use Rattle.sp_analysis.specs.View.{verdict_of};
ghost use Rattle.sp_analysis.specs.Printed as print;

use crate::replies::Command;
use crate::shown::{counts, graphs};
use crate::tried::Tried;
use crate::verdict::Verdict;
use sp_check::Clause;
use sp_pose::kind_text;
use sp_written::{Span, TraceKind};
use std::alloc::{AllocError, Global};

/// Where the text goes on when the proof is taken out, with a line feed directly behind it.
fn goes_on(text: &[u8], span: Span) -> usize
    requires { span.to ≤ length text.now }
    ensures { result ≡ places.goes_on text.now (view.span_of span) }
{
    if span.to == span.from {
        return span.to;
    }
    match &text[span.to..] {
        [b'\n', ..] => span.to + 1,
        _ => span.to,
    }
}

/// Puts what stands between two places at the end, and a proof behind it.
fn write_proof(
    out: &mut Vec<u8>,
    text: &[u8],
    start: usize,
    behind: usize,
    proof: &str,
) -> Result<(), AllocError>
    requires start { start ≤ behind }
    requires end { behind ≤ length text.now }
    ensures { OnOk result (out.new.items ≡ out.old.items ++ (between start behind text.now ++ (codes "\n" ++ proof.now))) }
{
    out.extend_from_slice(&text[start..behind])?;
    out.extend_from_slice(b"\n")?;
    out.extend_from_slice(proof.as_bytes())
}

/// Puts the text up to `end` at the end, with each proof in its place.
fn write_proofs(
    out: &mut Vec<u8>,
    text: &[u8],
    lemmas: &Vec<Tried>,
    end: usize,
) -> Result<(), AllocError>
    requires rise { Rise text.now 0 (map (λ t. view.span_of t.span) lemmas.now.items) end }
    requires end { end ≤ length text.now }
    ensures { OnOk result (out.new.items ≡ out.old.items ++ print.spliced text.now 0 (map print.printed_of lemmas.now.items) end) }
{
    let mut start = 0;
    for lemma in lemmas {
        write_proof(out, text, start, lemma.span.from, &lemma.proof)?;
        start = goes_on(text, lemma.span);
    }
    out.extend_from_slice(&text[start..end])
}

/// The word of a clause.
fn clause_text(clause: Clause) -> &'static str
    ensures { result.now ≡ spec.clause_text (clause_of clause) }
{
    match clause {
        Clause::Move => "move",
        Clause::Instance => "instance",
        Clause::Cases => "cases",
    }
}

/// What falsifies a lemma.
fn falsified_text(kind: TraceKind) -> &'static str
    ensures { result.now ≡ spec.falsified_text (view.kind kind) }
{
    match kind {
        TraceKind::AllTraces => "falsified - found trace",
        TraceKind::ExistsTrace => "falsified - no trace found",
    }
}

/// The words of a verdict, with the number of the proof's steps.
fn verdict_text(
    alloc: Global,
    kind: TraceKind,
    verdict: Verdict,
    steps: u64,
) -> Result<String, AllocError>
    ensures { IfOk result (λ text. string_bytes text ≡ spec.verdict_text (view.kind kind) (verdict_of verdict) steps) }
{
    match verdict {
        Verdict::Verified => format!(in alloc; "verified ({steps} steps)\n"),
        Verdict::Falsified => {
            let words = falsified_text(kind);
            format!(in alloc; "{words} ({steps} steps)\n")
        }
        Verdict::Incomplete => format!(in alloc; "analysis incomplete ({steps} steps)\n"),
        Verdict::Rejected(step, clause) => {
            let word = clause_text(clause);
            format!(in alloc; "rejected at step {step} ({word})\n")
        }
    }
}

/// What a lemma is read over, where that isn't executions.
fn reading_text(marked: bool) -> &'static str
    ensures { result.now ≡ kinds.reading_text marked }
{
    if marked { ", over learning logs" } else { "" }
}

/// The line that says what came of a lemma.
fn summary_line(alloc: Global, lemma: &Tried) -> Result<String, AllocError>
    ensures { IfOk result (λ line. string_bytes line ≡ print.line_of (print.printed_of lemma.now)) }
{
    let name = lemma.name;
    let kind = kind_text(lemma.kind);
    let reading = reading_text(lemma.marked);
    let words = verdict_text(alloc, lemma.kind, lemma.verdict, lemma.steps)?;
    let line = format!(in alloc; "{name} ({kind}{reading}): {words}")?;
    Ok(line)
}

/// Puts a line for each lemma at the end, with the execution that was found behind it.
fn write_summary(alloc: Global, out: &mut Vec<u8>, lemmas: &Vec<Tried>) -> Result<(), AllocError>
    ensures { OnOk result (out.new.items ≡ out.old.items ++ print.lines (map print.printed_of lemmas.now.items)) }
{
    for lemma in lemmas {
        let line = summary_line(alloc, lemma)?;
        out.extend_from_slice(line.as_bytes())?;
        out.extend_from_slice(lemma.block.as_bytes())?;
    }
    Ok(())
}

/// The text up to `end`, with each proof behind its lemma, and the summary in a comment.
fn analysed_text(
    alloc: Global,
    text: &[u8],
    lemmas: &Vec<Tried>,
    end: usize,
) -> Result<Vec<u8>, AllocError>
    requires rise { Rise text.now 0 (map (λ t. view.span_of t.span) lemmas.now.items) end }
    requires end { end ≤ length text.now }
    ensures { IfOk result (λ written. written.items ≡ print.text_with text.now (map print.printed_of lemmas.now.items) end) }
{
    let mut written = Vec::new(alloc);
    write_proofs(&mut written, text, lemmas, end)?;
    written.extend_from_slice(b"\n/*\n")?;
    write_summary(alloc, &mut written, lemmas)?;
    written.extend_from_slice(b"*/\n")?;
    Ok(written)
}

/// The summary alone.
fn summary(alloc: Global, lemmas: &Vec<Tried>) -> Result<Vec<u8>, AllocError>
    ensures { IfOk result (λ written. written.items ≡ print.lines (map print.printed_of lemmas.now.items)) }
{
    let mut written = Vec::new(alloc);
    write_summary(alloc, &mut written, lemmas)?;
    Ok(written)
}

/// What is written by the command.
///
/// # Errors
///
/// `AllocError` where memory is wanting.
pub fn written_by(
    alloc: Global,
    command: Command,
    text: &[u8],
    lemmas: &Vec<Tried>,
    end: usize,
) -> Result<Vec<u8>, AllocError>
    requires rise { Rise text.now 0 (map (λ t. view.span_of t.span) lemmas.now.items) end }
    requires end { end ≤ length text.now }
    ensures { IfOk result (λ written. written.items ≡ print.written_by command text.now (map print.printed_of lemmas.now.items) end) }
{
    match command {
        Command::Prove(_) => analysed_text(alloc, text, lemmas, end),
        Command::Check => summary(alloc, lemmas),
        Command::Graph(_) => graphs(alloc, lemmas),
        Command::Count(_) => counts(alloc, lemmas),
    }
}

/// The verdicts in their order.
///
/// # Errors
///
/// `AllocError` where memory is wanting.
pub fn verdicts(alloc: Global, lemmas: &Vec<Tried>) -> Result<Vec<Verdict>, AllocError>
    ensures { IfOk result (λ vs. vs.items ≡ map (λ t. t.verdict) lemmas.now.items) }
{
    lemmas.iter().map(|lemma| lemma.verdict).collect(alloc)
}
