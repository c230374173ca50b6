// The logs of executions: each keeps the clauses of logs, shows the execution's trace, and learns what is worked out by hand.

ghost use Rattle.sp_pose.specs.Posed.{IsPosedBy};

use sp_exec::replay::{Replayed, replay};
use sp_fact::ground_fact::Trace;
use sp_fact::ground_term::GroundTerm;
use sp_fact::rule::Rule;
use sp_fact::signature::Signature;
use sp_fact::step::Step;
use sp_learn::check::{Checked, check_log};
use sp_learn::log::{Entry, How, Log};
use sp_learn::trace::visible_trace;
use sp_pose::{Problem, Read, posed_by};
use sp_read_steps::{StepLines, read_steps};
use sp_show::term::write_term;
use sp_show::trace::trace_block;
use sp_transfer::transfer::to_log;
use sp_variant::book::book;
use std::alloc::{AllocError, Global};
use std::test::Fail;

/// What a log shows and learns, in words.
#[derive(Drop)]
pub(crate) struct Told {
    /// its visible trace, as it is printed
    pub(crate) trace: String,
    /// a line for each message that is learnt, and how
    pub(crate) learnt: String,
}

// The line of a message that is learnt: of a chain the position of its step, the place of the conclusion, and how many messages it has.
fn write_learnt(
    alloc: Global,
    out: &mut String,
    message: &GroundTerm,
    how: &How,
) -> Result<(), AllocError> {
    write_term(out, message)?;
    match how {
        How::PublicName => out.push_str(" public\n"),
        How::OwnName => out.push_str(" own\n"),
        How::Constructed => out.push_str(" made\n"),
        How::Chain {
            step,
            conclusion,
            messages,
        } => {
            let count = messages.len();
            let way = format!(in alloc; " from {step}.{conclusion} by {count}\n")?;
            out.push_str(&way)
        }
    }
}

fn learnt_in(alloc: Global, log: &Log) -> Result<String, AllocError> {
    let mut out = String::new(alloc);
    for entry in &log.entries {
        if let Entry::Learn(message, how) = entry {
            write_learnt(alloc, &mut out, message, how)?;
        }
    }
    Ok(out)
}

/// Whether the log keeps the clauses of logs.
fn keeps_clauses(
    alloc: Global,
    signature: &Signature,
    rules: &Vec<Rule>,
    log: &Log,
) -> Result<bool, AllocError> {
    let book = book(alloc, &signature.equations, rules)?;
    Ok(check_log(alloc, signature, &book.rules, log)? == Checked::Fine)
}

/// The log of these steps, and the trace of their replay; neither where they can't be done.
fn logged(
    alloc: Global,
    signature: &Signature,
    rules: &Vec<Rule>,
    steps: &Vec<Step>,
    replayed: Replayed,
) -> Result<Option<(Log, Trace)>, Fail> {
    let log = to_log(alloc, signature, rules, steps)?;
    match (replayed, log) {
        (Replayed::Done(trace), Some(log)) => {
            if keeps_clauses(alloc, signature, rules, &log)? {
                Ok(Some((log, trace)))
            } else {
                Err("the log breaks a clause".into())
            }
        }
        (Replayed::Refused(_, _), None) => Ok(None),
        _ => Err("there is a log of what is no execution, or none of one".into()),
    }
}

/// The log of the steps of these lines over what the text poses, and the trace that replaying gives; none where they can't be done.
fn followed(
    alloc: Global,
    text: &[u8],
    problem: &Problem,
    lines: &[u8],
) -> Result<Option<(Log, Trace)>, Fail>
    requires { IsPosedBy text.now problem.now }
{
    let StepLines::Steps(steps) = read_steps(alloc, &problem.signature.symbols, lines)? else {
        return Err("a line is no step's".into());
    };
    let replayed = replay(alloc, &problem.signature, &problem.rules, &steps)?;
    logged(alloc, &problem.signature, &problem.rules, &steps, replayed)
}

/// The log of the steps of these lines over a theory.
pub(crate) fn log_of(
    alloc: Global,
    theory: &str,
    lines: &str,
) -> Result<Option<(Log, Trace)>, Fail> {
    let text = theory.as_bytes();
    let Read::Posed(problem) = posed_by(alloc, text)? else {
        return Err("nothing is posed".into());
    };
    followed(alloc, text, &problem, lines.as_bytes())
}

/// What the log of the steps shows, which is what replaying shows, and learns.
pub(crate) fn told_of(alloc: Global, theory: &str, lines: &str) -> Result<Option<Told>, Fail> {
    let Some((log, replayed)) = log_of(alloc, theory, lines)? else {
        return Ok(None);
    };
    let trace = trace_block(alloc, &visible_trace(alloc, &log)?)?;
    if trace != trace_block(alloc, &replayed)? {
        return Err("the log shows another trace".into());
    }
    let learnt = learnt_in(alloc, &log)?;
    Ok(Some(Told { trace, learnt }))
}

#[test]
fn a_message_is_learnt_once(rt: HostRuntime) -> Result<(), Fail> {
    let alloc = rt.alloc();
    let lines = "fresh ~n1\nown ~n1\npub 'a'\nmake <~n1, 'a'>\nmake fst(<~n1, 'a'>)\nin ~n1\n";
    let told = told_of(alloc, "theory T begin end", lines)?.ok_or("log")?;
    assert_eq!(rt; told.trace.as_str(), "trace:\nK(~n1)\nend of trace\n");
    assert_eq!(rt;
        told.learnt.as_str(),
        "~n1 own\n'a' public\n<~n1, 'a'> made\n"
    );
    Ok(())
}

/// Needham and Schroeder's public key protocol.
const NEEDHAM_SCHROEDER: &str = "theory NS begin
builtins: asymmetric-encryption
rule Key: [ Fr(~k) ] --> [ !Sk($A, ~k), !Pk($A, pk(~k)), Out(pk(~k)) ]
rule Reveal: [ !Sk(A, k) ] --[ Rev(A) ]-> [ Out(k) ]
rule I1: [ Fr(~na), !Pk($B, pkB) ] --> [ Out(aenc(<'1', ~na, $A>, pkB)), St_I($A, $B, ~na) ]
rule R1: [ !Sk($B, kb), !Pk($A, pkA), In(aenc(<'1', na, $A>, pk(kb))), Fr(~nb) ] --> [ Out(aenc(<'2', na, ~nb>, pkA)), St_R($A, $B, na, ~nb) ]
rule I2: [ St_I($A, $B, ~na), !Sk($A, ka), !Pk($B, pkB), In(aenc(<'2', ~na, nb>, pk(ka))) ] --[ Running($A, $B, nb) ]-> [ Out(aenc(<'3', nb>, pkB)) ]
rule R2: [ St_R($A, $B, na, ~nb), !Sk($B, kb), In(aenc(<'3', ~nb>, pk(kb))) ] --[ Commit($B, $A, ~nb) ]-> [ ]
end
";

/// Lowe's attack on it.
const LOWE: &str = "fresh ~n1
rule Key: k = ~n1, A = 'A'
fresh ~n2
rule Key: k = ~n2, A = 'B'
fresh ~n3
rule Key: k = ~n3, A = 'C'
rule Reveal: A = 'C', k = ~n3
out ~n3
fresh ~n4
rule I1: na = ~n4, B = 'C', pkB = pk(~n3), A = 'A'
out aenc(<'1', ~n4, 'A'>, pk(~n3))
make adec(aenc(<'1', ~n4, 'A'>, pk(~n3)), ~n3)
out pk(~n2)
make aenc(<'1', ~n4, 'A'>, pk(~n2))
in aenc(<'1', ~n4, 'A'>, pk(~n2))
fresh ~n5
rule R1: B = 'B', kb = ~n2, A = 'A', pkA = pk(~n1), na = ~n4, nb = ~n5
out aenc(<'2', ~n4, ~n5>, pk(~n1))
in aenc(<'2', ~n4, ~n5>, pk(~n1))
rule I2: A = 'A', B = 'C', na = ~n4, ka = ~n1, pkB = pk(~n3), nb = ~n5
out aenc(<'3', ~n5>, pk(~n3))
make adec(aenc(<'3', ~n5>, pk(~n3)), ~n3)
make aenc(<'3', ~n5>, pk(~n2))
in aenc(<'3', ~n5>, pk(~n2))
rule R2: A = 'A', B = 'B', na = ~n4, nb = ~n5, kb = ~n2
";

/// What it shows.
const SEEN: &str = "trace:
Rev('C')
K(aenc(<'1', ~n4, 'A'>, pk(~n2)))
K(aenc(<'2', ~n4, ~n5>, pk(~n1)))
Running('A', 'C', ~n5)
K(aenc(<'3', ~n5>, pk(~n2)))
Commit('B', 'A', ~n5)
end of trace
";

/// What the adversary learns in it: the key that is revealed, and by it what is in the first and the third message that A sends to C.
const LEARNT: &str = "~n3 from 3.0 by 1
aenc(<'1', ~n4, 'A'>, pk(~n3)) from 5.0 by 1
'1' public
~n4 from 5.0 by 4
'A' public
<~n4, 'A'> made
<'1', ~n4, 'A'> made
pk(~n2) from 1.2 by 1
aenc(<'1', ~n4, 'A'>, pk(~n2)) made
aenc(<'2', ~n4, ~n5>, pk(~n1)) from 15.0 by 1
aenc(<'3', ~n5>, pk(~n3)) from 18.0 by 1
'3' public
~n5 from 18.0 by 3
<'3', ~n5> made
aenc(<'3', ~n5>, pk(~n2)) made
";

#[test]
fn an_attack_has_its_log(rt: HostRuntime) -> Result<(), Fail> {
    let told = told_of(rt.alloc(), NEEDHAM_SCHROEDER, LOWE)?.ok_or("log")?;
    assert_eq!(rt; told.trace.as_str(), SEEN);
    assert_eq!(rt; told.learnt.as_str(), LEARNT);
    Ok(())
}
