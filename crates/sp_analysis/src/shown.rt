// What is shown of lemmas that were tried, in the place of their proofs.

ghost use Rattle.std.specs.Prelude.{◌≡◌, ◌++◌, IfOk, codes, count_by, decimal, map, option_map, string_bytes};
ghost use Rattle.sp_learn.specs.View.{log_of};
ghost use Rattle.sp_spec_text.specs.Numerals.{counted};
ghost use Rattle.sp_analysis.specs.Shown as spec;
ghost use Rattle.sp_analysis.specs.Sought.{given};
ghost use Rattle.sp_analysis.specs.View.{setting_in, verdict_of};
ghost use Rattle.sp_analysis.specs.Printed as print;

use crate::replies::Command;
use crate::setting::Setting;
use crate::tried::Tried;
use crate::verdict::Verdict;
use sp_graph::graph::graph;
use sp_learn::log::Log;
use std::alloc::{AllocError, Global};

/// The graph of the log, or the word that there is none.
fn graph_or_none(
    alloc: Global,
    setting: &Setting,
    name: &str,
    log: Option<&Log>,
) -> Result<String, AllocError>
    ensures { IfOk result (λ text. string_bytes text ≡ spec.graph_or_none (given (setting_in setting.now)) name.now (option_map (λ l. log_of l.now) log.entry)) }
{
    match log {
        Some(log) => graph(alloc, &setting.signature, &setting.book, name, log),
        None => String::from_str(alloc, "no graph\n"),
    }
}

/// The graph of the log that was found for the lemma of this name, where the command asks for it; nothing where it doesn't.
///
/// # Errors
///
/// `AllocError` where memory is wanting.
pub fn graph_of(
    alloc: Global,
    command: Command,
    setting: &Setting,
    name: &str,
    log: Option<&Log>,
) -> Result<String, AllocError>
    ensures { IfOk result (λ text. string_bytes text ≡ print.graphing command (given (setting_in setting.now)) name.now (option_map (λ l. log_of l.now) log.entry)) }
{
    match command {
        Command::Graph(_) => graph_or_none(alloc, setting, name, log),
        Command::Prove(_) | Command::Check | Command::Count(_) => Ok(String::new(alloc)),
    }
}

/// The graphs, one after the other.
///
/// # Errors
///
/// `AllocError` where memory is wanting.
pub fn graphs(alloc: Global, lemmas: &Vec<Tried>) -> Result<Vec<u8>, AllocError>
    ensures { IfOk result (λ written. written.items ≡ print.graphs_in (map print.printed_of lemmas.now.items)) }
{
    let mut written = Vec::new(alloc);
    for lemma in lemmas {
        written.extend_from_slice(lemma.graph.as_bytes())?;
    }
    Ok(written)
}

/// Whether the lemma was verified.
fn is_verified(verdict: Verdict) -> bool
    ensures { result ≡ spec.is_verified (verdict_of verdict) }
{
    match verdict {
        Verdict::Verified => true,
        _ => false,
    }
}

/// Whether it was falsified.
fn is_falsified(verdict: Verdict) -> bool
    ensures { result ≡ spec.is_falsified (verdict_of verdict) }
{
    match verdict {
        Verdict::Falsified => true,
        _ => false,
    }
}

/// Whether its analysis is incomplete.
fn is_incomplete(verdict: Verdict) -> bool
    ensures { result ≡ spec.is_incomplete (verdict_of verdict) }
{
    match verdict {
        Verdict::Incomplete => true,
        _ => false,
    }
}

/// How many of the lemmas were verified.
fn verified(lemmas: &Vec<Tried>) -> usize
    ensures { result ≡ count_by (λ t. spec.is_verified (verdict_of t.verdict)) lemmas.now.items }
{
    lemmas
        .iter()
        .filter(|lemma| is_verified(lemma.verdict))
        .count()
}

/// How many were falsified.
fn falsified(lemmas: &Vec<Tried>) -> usize
    ensures { result ≡ count_by (λ t. spec.is_falsified (verdict_of t.verdict)) lemmas.now.items }
{
    lemmas
        .iter()
        .filter(|lemma| is_falsified(lemma.verdict))
        .count()
}

/// Of how many the analysis is incomplete.
fn incomplete(lemmas: &Vec<Tried>) -> usize
    ensures { result ≡ count_by (λ t. spec.is_incomplete (verdict_of t.verdict)) lemmas.now.items }
{
    lemmas
        .iter()
        .filter(|lemma| is_incomplete(lemma.verdict))
        .count()
}

/// How many moves their proofs have together; `u64::MAX` where they are more.
fn all_steps(lemmas: &Vec<Tried>) -> u64
    ensures { result ≡ counted (print.steps_in (map print.printed_of lemmas.now.items)) }
{
    let mut total: u64 = 0;
    for lemma in lemmas {
        total = total.saturating_add(lemma.steps);
    }
    total
}

/// The lines of these counts.
fn count_lines(
    alloc: Global,
    count: usize,
    verified: usize,
    falsified: usize,
    incomplete: usize,
    steps: u64,
) -> Result<String, AllocError>
    ensures { IfOk result (λ text. string_bytes text ≡ codes "lemmas: " ++ (decimal count ++ (codes "\nverified: " ++ (decimal verified ++ (codes "\nfalsified: " ++ (decimal falsified
        ++ (codes "\nincomplete: " ++ (decimal incomplete ++ (codes "\nsteps: " ++ (decimal steps ++ codes "\n")))))))))) }
{
    format!(in alloc;
        "lemmas: {count}\nverified: {verified}\nfalsified: {falsified}\nincomplete: {incomplete}\nsteps: {steps}\n"
    )
}

/// How many lemmas there are, how many verdicts of each kind, and how many moves the proofs have together.
///
/// # Errors
///
/// `AllocError` where memory is wanting.
pub fn counts(alloc: Global, lemmas: &Vec<Tried>) -> Result<Vec<u8>, AllocError>
    ensures { IfOk result (λ written. written.items ≡ print.counts_in (map print.printed_of lemmas.now.items)) }
{
    let count = lemmas.len();
    let verified = verified(lemmas);
    let falsified = falsified(lemmas);
    let incomplete = incomplete(lemmas);
    let steps = all_steps(lemmas);
    let text = count_lines(alloc, count, verified, falsified, incomplete, steps)?;
    Ok(text.into_bytes())
}
