// The steps behind a text, replayed.

ghost use Rattle.std.specs.Prelude.{◌≡◌, IfOk};
ghost use Rattle.sp_pose.specs.Posed.{IsPosedBy};
ghost use Rattle.sp_pose.specs.Replies.{IsReplyTo};
ghost use Rattle.sp_replay.specs.Replay as spec;
ghost use Rattle.sp_replay.specs.View.{IsDone};

use crate::written::written_by;
use sp_exec::cause::Cause;
use sp_exec::replay::{Replayed, replay};
use sp_pose::{Problem, Read, Reply, posed_by};
use sp_read_steps::{StepLines, read_steps};
use std::alloc::{AllocError, Global};

/// What comes of the lines behind a text that are replayed.
#[derive(Drop)]
pub enum Attempt {
    /// This line, counted from 1 behind that of `end`, is no step's.
    Unread(usize),
    /// This step, counted from 1, can't be done, for this cause.
    Stopped(usize, Cause),
    /// The steps are an execution; its trace, and what is true over it.
    Done(Vec<u8>),
}

/// What stands behind the first line.
fn behind_line(text: &[u8]) -> &[u8]
    ensures { result.now ≡ spec.behind_line text.now }
{
    let mut rest = text;
    while let [byte, behind @ ..] = rest {
        if *byte == b'\n' {
            return behind;
        }
        rest = behind;
    }
    rest
}

/// The steps behind the theory, replayed.
fn replayed_on(alloc: Global, text: &[u8], problem: Problem) -> Result<Attempt, AllocError>
    requires { IsPosedBy text.now problem }
    ensures { IfOk result (IsDone text.now) }
{
    let signature = problem.signature;
    let lines = behind_line(&text[problem.behind_end..]);
    let steps = match read_steps(alloc, &signature.symbols, lines)? {
        StepLines::Unread(number) => return Ok(Attempt::Unread(number)),
        StepLines::Steps(steps) => steps,
    };
    match replay(alloc, &signature, &problem.rules, &steps)? {
        Replayed::Refused(number, cause) => Ok(Attempt::Stopped(number, cause)),
        Replayed::Done(trace) => {
            let written = written_by(alloc, &problem.restrictions, &problem.lemmas, &trace)?;
            Ok(Attempt::Done(written))
        }
    }
}

/// What comes of a problem of the text.
fn reply(alloc: Global, text: &[u8], problem: Problem) -> Result<Reply<Attempt>, AllocError>
    requires { IsPosedBy text.now problem }
    ensures { IfOk result (IsReplyTo IsDone text.now) }
{
    let attempt = replayed_on(alloc, text, problem)?;
    Ok(Reply::Done(attempt))
}

/// What comes of a text whose lines behind its word `end` are replayed: it is refused at a place, or there are findings on its theory, or a line is no
/// step's, or a step can't be done, or the steps are an execution.
///
/// # Errors
///
/// `AllocError` where memory is wanting.
pub fn replayed(alloc: Global, text: &[u8]) -> Result<Reply<Attempt>, AllocError>
    ensures { IfOk result (IsReplyTo IsDone text.now) }
{
    match posed_by(alloc, text)? {
        Read::Refused(place) => Ok(Reply::Refused(place)),
        Read::Reported(lines) => Ok(Reply::Reported(lines)),
        Read::Posed(problem) => reply(alloc, text, problem),
    }
}
