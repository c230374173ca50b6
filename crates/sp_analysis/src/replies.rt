// What comes of a text.

ghost use Rattle.std.specs.Prelude.{◌≡◌, ◌≤◌, true, IfOk, length, map, option_map};
ghost use Rattle.sp_written.specs.Views as view;
ghost use Rattle.sp_spec_text.specs.Spans.{Rise};
ghost use Rattle.sp_pose.specs.Posed.{IsPosedBy};
ghost use Rattle.sp_pose.specs.Replies.{IsReplyTo};
ghost use Rattle.sp_pose.specs.Required.{required_of};
ghost use Rattle.sp_formula.specs.FormulaView.{formula_of};
ghost use Rattle.sp_analysis.specs.Printed as print;
ghost use Rattle.sp_analysis.specs.Chosen as spec;
ghost use Rattle.sp_analysis.specs.Replies.{IsAnswered, IsAttempted};
ghost use Rattle.sp_pose.specs.Asked.{asked_of};

use crate::chosen::{is_among, run_among};
use crate::setting::Setting;
use crate::tried::{Tried, all_tried};
use crate::verdict::Verdict;
use crate::written::{verdicts, written_by};
use sp_formula::formula::Formula;
use sp_pose::{GuardedRestriction, Problem, Read, Reply, posed_by};
use sp_variant::book::book;
use std::alloc::{AllocError, Global};

/// What is to be done with a text.
#[derive(Clone, Copy, Debug, PartialEq, Eq)]
pub enum Command {
    /// A proof of at most so many moves is grown for each lemma.
    Prove(u64),
    /// The proof that stands below each lemma is checked.
    Check,
    /// A proof of at most so many moves is grown for each lemma, and the log that is found is written as a graph.
    Graph(u64),
    /// A proof of at most so many moves is grown for each lemma, and the verdicts are counted.
    Count(u64),
}

/// What is written of a text's lemmas.
#[derive(Drop)]
pub struct Answered {
    /// what is written
    pub written: Vec<u8>,
    /// what is said of each lemma
    pub verdicts: Vec<Verdict>,
}

/// What comes of a text without findings.
#[derive(Drop)]
pub enum Attempt {
    /// It has no lemma of the name that is given.
    NoLemma,
    /// Its lemmas have been tried, or their proofs have been checked.
    Done(Answered),
}

/// What is written of the lemmas that have been tried, and what is said of them.
fn answered_by(
    alloc: Global,
    command: Command,
    text: &[u8],
    lemmas: &Vec<Tried>,
    end: usize,
) -> Result<Answered, AllocError>
    requires rise { Rise text.now 0 (map (λ t. view.span_of t.span) lemmas.now.items) end }
    requires end { end ≤ length text.now }
    ensures written { IfOk result (λ a. a.written.items ≡ print.written_by command text.now (map print.printed_of lemmas.now.items) end) }
    ensures verdicts { IfOk result (λ a. a.verdicts.items ≡ map (λ t. t.verdict) lemmas.now.items) }
{
    let written = written_by(alloc, command, text, lemmas, end)?;
    let verdicts = verdicts(alloc, lemmas)?;
    Ok(Answered { written, verdicts })
}

/// The guarded forms of restrictions.
fn their_forms(
    alloc: Global,
    restrictions: Vec<GuardedRestriction>,
) -> Result<Vec<Formula>, AllocError>
    ensures { IfOk result (λ fs. map formula_of fs.items ≡ map (λ q. q.form) (map required_of restrictions.entry.items)) }
{
    let mut forms = Vec::with_capacity(alloc, restrictions.len())?;
    for restriction in restrictions {
        forms.push(restriction.form)?;
    }
    Ok(forms)
}

/// What is done with a problem of the text, which has the lemma that is named, if one is.
fn done(
    alloc: Global,
    command: Command,
    chosen: Option<&str>,
    text: &[u8],
    problem: Problem,
) -> Result<Answered, AllocError>
    requires posed { IsPosedBy text.now problem }
    requires has { spec.is_among (option_map (λ s. s.now) chosen) (map (λ a. a.name) (map asked_of problem.lemmas.items)) ≡ true }
    ensures { IfOk result (IsAnswered command (option_map (λ s. s.now) chosen.entry) text.now) }
{
    let book = book(alloc, &problem.signature.equations, &problem.rules)?;
    let Problem {
        signature,
        rules: _,
        constants,
        restrictions,
        lemmas,
        ranking,
        behind_end,
    } = problem;
    let restrictions = their_forms(alloc, restrictions)?;
    let to_run = run_among(alloc, chosen, lemmas)?;
    let setting = Setting {
        signature,
        book,
        constants,
        restrictions,
        ranking,
    };
    let tried = all_tried(alloc, command, &setting, &to_run)?;
    answered_by(alloc, command, text, &tried, behind_end)
}

/// What comes of a problem of the text.
fn attempted(
    alloc: Global,
    command: Command,
    chosen: Option<&str>,
    text: &[u8],
    problem: Problem,
) -> Result<Attempt, AllocError>
    requires { IsPosedBy text.now problem }
    ensures { IfOk result (IsAttempted command (option_map (λ s. s.now) chosen.entry) text.now) }
{
    if is_among(chosen, &problem.lemmas) {
        let answered = done(alloc, command, chosen, text, problem)?;
        Ok(Attempt::Done(answered))
    } else {
        Ok(Attempt::NoLemma)
    }
}

/// What comes of a text: it is refused at a place, or there are findings on its theory, or it has no lemma of the name that is given, or each of its lemmas is tried, or the proof of each is
/// checked. Where a name is given, that lemma alone is tried, and none is taken for it.
///
/// # Errors
///
/// `AllocError` where memory is wanting, or no number is left for a new variable.
pub fn answer(
    alloc: Global,
    command: Command,
    chosen: Option<&str>,
    text: &[u8],
) -> Result<Reply<Attempt>, AllocError>
    ensures { IfOk result (IsReplyTo (IsAttempted command (option_map (λ s. s.now) chosen.entry)) text.now) }
{
    match posed_by(alloc, text)? {
        Read::Refused(place) => Ok(Reply::Refused(place)),
        Read::Reported(lines) => Ok(Reply::Reported(lines)),
        Read::Posed(problem) => {
            let attempt = attempted(alloc, command, chosen, text, problem)?;
            Ok(Reply::Done(attempt))
        }
    }
}
