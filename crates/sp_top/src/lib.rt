// The top call: from the words of a command to the text that is written and the status.
// Below stand what tries the lemmas of a text or checks their proofs (sp_analysis), what replays the steps behind it (sp_replay), what lists its rules'
// forms (sp_rule_forms), what makes a theory of a number (sp_generated), and the library that texts come from and the sink that answers go to (sp_io). The program stands above and only makes the words, the library and the sink.
// It promises that what is written of each lemma is so, that each status comes by its cause alone, that what is written is the whole
// answer or, after a fault of the sink, a prefix of that very answer, and that what is fetched is what the words ask for.
#![tactic(auto)]

ghost use Rattle.std.specs.Prelude.{◌≡◌, ◌⊎◌, ◌++◌, [], ◌∷◌, ℕ, suc, None, Some, OnOk, IfOk, map, option_map, codes, decimal};
ghost use Rattle.std.specs.List.{list_any};
ghost use Rattle.sp_io.specs.Told.{extended};
ghost use Rattle.sp_top.specs.Answer as answer;
ghost use Rattle.sp_top.specs.Answer.{CommandAnswer, TextAnswer, IsFileAnswer, IsAnswer};
ghost use Rattle.sp_exec.specs.Replay.{rank};
ghost use Rattle.sp_exec.specs.View.{cause_of};
ghost use Rattle.sp_top.specs.Command as command;
ghost use Rattle.sp_top.specs.Command.{IsLine, IsNoLine, fetched, told, request_of, of_proofs, budget_in};
ghost use Rattle.sp_generated.specs.Theory as theories;
ghost use Rattle.sp_words.specs.Line.{of_file};
ghost use Rattle.sp_top.specs.Headline.{VerdictsAreTrue};
ghost use Rattle.sp_top.specs.Run.{UsageExactly, ReadFaultExactly, TooLongExactly, AnswersExactly, PosedIsAnswered, VerdictsHold, WritesWhole, WritesPrefix, IsComplete, WriteFaultOnly, WritesNothing, AsksAsRequested};
ghost use Rattle.sp_top.specs.declared.Status.TheVariants.{Fine, Falsified, Incomplete, Rejected, Refused, TooLong};
ghost use Rattle.sp_analysis.specs.View.{verdict_of};
ghost use Rattle.sp_words.specs.declared.Command.TheVariants.{Replay, Variants, Wf};

use sp_analysis::Verdict;
use sp_generated::generated;
use sp_io::{FetchFail, Library, Sink, write_whole};
use sp_pose::{Reply, Reviewing};
use sp_replay::{Attempt, Cause};
use sp_words::{Command, Request, RequestError, Text};
use std::alloc::{AllocError, Global};

mod words;

pub use words::Words;

/// How many bytes a text may have.
const TEXT_LIMIT: usize = 1_048_576;

/// How a call ended; the number is the program's status.
#[derive(Clone, Copy, Debug, PartialEq, Eq)]
pub enum Status {
    /// All is verified, or accepted, or without fatal finding, or done.
    Fine = 0,
    /// Some lemma is falsified.
    Falsified = 1,
    /// Some lemma is incomplete.
    Incomplete = 2,
    /// Some proof is rejected, or a step can't be done.
    Rejected = 3,
    /// The text is refused, or its theory, or a line behind it, or it has no lemma of the name that is given.
    Refused = 4,
    /// The words are no line of the command.
    Usage = 5,
    /// The library failed, or tells that it holds nothing under FILE.
    ReadFault = 6,
    /// The sink failed.
    WriteFault = 7,
    /// Memory was wanting, and nothing was written.
    NoMemory = 8,
    /// The text is longer than the limit.
    TooLong = 9,
}

/// A fixed answer.
fn fixed(alloc: Global, text: &[u8], status: Status) -> Result<(Vec<u8>, Status), AllocError>
    ensures text { IfOk result (λ answer. answer.0.items ≡ text.now) }
    ensures status { IfOk result (λ answer. answer.1 ≡ status) }
{
    let text = Vec::from_slice(alloc, text)?;
    Ok((text, status))
}

/// A verdict for which a status of its own stands.
#[derive(Clone, Copy)]
enum Wanted {
    Rejected,
    Falsified,
    Incomplete,
}

/// Whether the verdict is such a one.
fn is_wanted(wanted: Wanted, verdict: Verdict) -> bool
    ensures { result ≡ answer.is_wanted wanted (verdict_of verdict) }
{
    match wanted {
        Wanted::Rejected => matches!(verdict, Verdict::Rejected(_, _)),
        Wanted::Falsified => matches!(verdict, Verdict::Falsified),
        Wanted::Incomplete => matches!(verdict, Verdict::Incomplete),
    }
}

/// Whether one of the verdicts is such a one.
fn some_is(wanted: Wanted, verdicts: &Vec<Verdict>) -> bool
    ensures { result ≡ list_any (answer.is_wanted wanted) (map verdict_of verdicts.now.items) }
{
    for verdict in verdicts {
        if is_wanted(wanted, *verdict) {
            return true;
        }
    }
    false
}

/// The status that the verdicts on a text's lemmas end with.
fn status_of(verdicts: &Vec<Verdict>) -> Status
    ensures { result ≡ answer.status_of (map verdict_of verdicts.now.items) }
{
    if some_is(Wanted::Rejected, verdicts) {
        Status::Rejected
    } else if some_is(Wanted::Falsified, verdicts) {
        Status::Falsified
    } else if some_is(Wanted::Incomplete, verdicts) {
        Status::Incomplete
    } else {
        Status::Fine
    }
}

/// The refusal of a text at a place.
fn refusal(alloc: Global, place: usize) -> Result<(Vec<u8>, Status), AllocError>
    ensures text { IfOk result (λ answer. answer.0.items ≡ codes "refused: text at byte " ++ (decimal place ++ codes "\n")) }
    ensures status { IfOk result (λ answer. answer.1 ≡ Refused) }
{
    let line = format!(in alloc; "refused: text at byte {place}\n")?;
    fixed(alloc, line.as_bytes(), Status::Refused)
}

/// The refusal of the name of a lemma.
fn lemma_refusal(alloc: Global, name: &str) -> Result<(Vec<u8>, Status), AllocError>
    ensures text { IfOk result (λ answer. answer.0.items ≡ codes "refused: no lemma " ++ (name.now ++ codes "\n")) }
    ensures status { IfOk result (λ answer. answer.1 ≡ Refused) }
{
    let line = format!(in alloc; "refused: no lemma {name}\n")?;
    fixed(alloc, line.as_bytes(), Status::Refused)
}

/// The refusal of a line behind a text.
fn line_refusal(alloc: Global, number: usize) -> Result<(Vec<u8>, Status), AllocError>
    ensures text { IfOk result (λ answer. answer.0.items ≡ codes "refused: line " ++ (decimal number ++ codes "\n")) }
    ensures status { IfOk result (λ answer. answer.1 ≡ Refused) }
{
    let line = format!(in alloc; "refused: line {number}\n")?;
    fixed(alloc, line.as_bytes(), Status::Refused)
}

/// The number of a cause, from 1.
fn cause_number(cause: Cause) -> u8
    ensures { result ≡ suc (rank (cause_of cause)) }
{
    match cause {
        Cause::NoSuchRule => 1,
        Cause::NoInstance => 2,
        Cause::PremiseAbsent => 3,
        Cause::FreshNameTwice => 4,
        Cause::WrongSort => 5,
    }
}

/// The refusal of a step.
fn step_refusal(alloc: Global, number: usize, cause: Cause) -> Result<(Vec<u8>, Status), AllocError>
    ensures text { IfOk result (λ answer. answer.0.items ≡ codes "step " ++ (decimal number ++ (codes " refused (" ++ (decimal (suc (rank (cause_of cause))) ++ codes ")\n")))) }
    ensures status { IfOk result (λ answer. answer.1 ≡ Rejected) }
{
    let cause = cause_number(cause);
    let line = format!(in alloc; "step {number} refused ({cause})\n")?;
    fixed(alloc, line.as_bytes(), Status::Rejected)
}

/// The whole answer to the bytes of a text whose lines are replayed.
#[tactic(auto, using(crate::proofs::Answered::answers))]
fn answer_steps(alloc: Global, bytes: &[u8]) -> Result<(Vec<u8>, Status), AllocError>
    ensures { IfOk result (λ answer. CommandAnswer Replay 0 None bytes.now answer.0.items answer.1) }
{
    match sp_replay::replayed(alloc, bytes)? {
        Reply::Refused(place) => refusal(alloc, place),
        Reply::Reported(lines) => Ok((lines, Status::Refused)),
        Reply::Done(Attempt::Unread(number)) => line_refusal(alloc, number),
        Reply::Done(Attempt::Stopped(number, cause)) => step_refusal(alloc, number, cause),
        Reply::Done(Attempt::Done(written)) => Ok((written, Status::Fine)),
    }
}

/// The whole answer to the bytes of a text whose rules' forms are listed.
#[tactic(auto, using(crate::proofs::Answered::answers))]
fn answer_forms(alloc: Global, bytes: &[u8]) -> Result<(Vec<u8>, Status), AllocError>
    ensures { IfOk result (λ answer. CommandAnswer Variants 0 None bytes.now answer.0.items answer.1) }
{
    match sp_rule_forms::variants(alloc, bytes)? {
        Reply::Refused(place) => refusal(alloc, place),
        Reply::Reported(lines) => Ok((lines, Status::Refused)),
        Reply::Done(written) => Ok((written, Status::Fine)),
    }
}

/// The whole answer to the bytes of a text whose theory is reviewed.
#[tactic(auto, using(crate::proofs::Answered::answers))]
fn answer_review(alloc: Global, bytes: &[u8]) -> Result<(Vec<u8>, Status), AllocError>
    ensures { IfOk result (λ answer. CommandAnswer Wf 0 None bytes.now answer.0.items answer.1) }
{
    match sp_pose::reviewed(alloc, bytes)? {
        Reviewing::Refused(place) => refusal(alloc, place),
        Reviewing::Done(review) => {
            let status = if review.is_fine {
                Status::Fine
            } else {
                Status::Refused
            };
            Ok((review.text, status))
        }
    }
}

/// The whole answer to the bytes of a text, as it was asked for.
fn answer(alloc: Global, request: &Request, bytes: &[u8]) -> Result<(Vec<u8>, Status), AllocError>
    ensures { IfOk result (λ answer. TextAnswer (request_of request.now) bytes.now answer.0.items answer.1) }
{
    match request.command {
        Command::Prove => {
            let command = sp_analysis::Command::Prove(request.budget);
            answer_proofs(alloc, command, request.lemma, bytes)
        }
        Command::Check => answer_proofs(alloc, sp_analysis::Command::Check, request.lemma, bytes),
        Command::Replay => answer_steps(alloc, bytes),
        Command::Variants => answer_forms(alloc, bytes),
        Command::Wf => answer_review(alloc, bytes),
        Command::Graph => {
            let command = sp_analysis::Command::Graph(request.budget);
            answer_proofs(alloc, command, request.lemma, bytes)
        }
        Command::Gen => {
            let command = sp_analysis::Command::Count(request.budget);
            answer_proofs(alloc, command, request.lemma, bytes)
        }
    }
}

/// The whole answer to the bytes of a text whose lemmas are proved, or their proofs checked.
#[tactic(auto, using(crate::proofs::Answered::answers))]
fn answer_proofs(
    alloc: Global,
    command: sp_analysis::Command,
    lemma: Option<&str>,
    bytes: &[u8],
) -> Result<(Vec<u8>, Status), AllocError>
    ensures { IfOk result (λ answer. CommandAnswer (of_proofs command) (budget_in command) (option_map (λ s. s.now) lemma.entry) bytes.now answer.0.items answer.1) }
{
    match sp_analysis::answer(alloc, command, lemma, bytes)? {
        Reply::Refused(place) => refusal(alloc, place),
        Reply::Reported(lines) => Ok((lines, Status::Refused)),
        Reply::Done(sp_analysis::Attempt::NoLemma) => match lemma {
            Some(name) => lemma_refusal(alloc, name),
            None => unreachable!(),
        },
        Reply::Done(sp_analysis::Attempt::Done(answer)) => {
            let status = status_of(&answer.verdicts);
            Ok((answer.written, status))
        }
    }
}

/// The answer to a text that is longer than the limit.
fn too_long(alloc: Global) -> Result<(Vec<u8>, Status), AllocError>
    ensures text { IfOk result (λ answer. answer.0.items ≡ codes "refused: text longer than 1048576 bytes\n") }
    ensures status { IfOk result (λ answer. answer.1 ≡ TooLong) }
{
    fixed(
        alloc,
        b"refused: text longer than 1048576 bytes\n",
        Status::TooLong,
    )
}

/// The whole answer to what is asked of the text of this name, which is fetched.
fn answer_file<L: Library>(
    alloc: Global,
    request: &Request,
    file: &str,
    library: &mut L,
) -> Result<(Vec<u8>, Status), AllocError>
    requires { (request_of request.now).text ≡ of_file file.now }
    ensures answer { IfOk result (λ answer. IsFileAnswer (request_of request.now) (L.holds library.old file.now) (L.faults library.old) (L.faults library.new) answer.0.items answer.1) }
    ensures asked { (L.asked library.new ≡ L.asked library.old) ⊎ (L.asked library.new ≡ extended (L.asked library.old) (file.now ∷ [])) }
    ensures asked_all { OnOk result (L.asked library.new ≡ extended (L.asked library.old) (file.now ∷ [])) }
{
    match library.fetch(alloc, file, TEXT_LIMIT) {
        Ok(bytes) => answer(alloc, request, &bytes),
        Err(FetchFail::Failed) | Err(FetchFail::Missing) => fixed(
            alloc,
            b"refused: read fault\n",
            Status::ReadFault,
        ),
        Err(FetchFail::TooLong) => too_long(alloc),
        Err(FetchFail::NoMemory) => Err(AllocError),
    }
}

/// The whole answer to what is asked of the theory that is made of this number.
fn answer_made(
    alloc: Global,
    request: &Request,
    number: u16,
) -> Result<(Vec<u8>, Status), AllocError>
    ensures { (before : ℕ) → (now : ℕ) → IfOk result (λ answer. IsFileAnswer (request_of request.now) (Some (Some (theories.generated number))) before now answer.0.items answer.1) }
{
    let bytes = generated(alloc, number)?;
    if TEXT_LIMIT < bytes.len() {
        return too_long(alloc);
    }
    answer(alloc, request, &bytes)
}

/// The whole answer to what is asked.
fn answer_request<L: Library>(
    alloc: Global,
    request: &Request,
    library: &mut L,
) -> Result<(Vec<u8>, Status), AllocError>
    ensures answer { IfOk result (λ answer. IsFileAnswer (request_of request.now) (told (L.holds library.old) (request_of request.now)) (L.faults library.old) (L.faults library.new) answer.0.items answer.1) }
    ensures asked { (L.asked library.new ≡ L.asked library.old) ⊎ (L.asked library.new ≡ extended (L.asked library.old) (fetched (request_of request.now))) }
    ensures asked_all { OnOk result (L.asked library.new ≡ extended (L.asked library.old) (fetched (request_of request.now))) }
{
    match request.text {
        Text::File(file) => answer_file(alloc, request, file, library),
        Text::Made(number) => answer_made(alloc, request, number),
    }
}

/// The whole answer to the words.
fn respond<L: Library>(
    alloc: Global,
    words: &Words,
    library: &mut L,
) -> Result<(Vec<u8>, Status), AllocError>
    ensures answer { IfOk result (λ answer. IsAnswer words.now (L.holds library.old) (L.faults library.old) (L.faults library.new) answer.0.items answer.1) }
    ensures no_line { IsNoLine words.now → L.asked library.new ≡ L.asked library.old }
    ensures asked { (request : command.Request) → IsLine words.now request → (L.asked library.new ≡ L.asked library.old) ⊎ (L.asked library.new ≡ extended (L.asked library.old) (fetched request)) }
    ensures asked_all { OnOk result ((request : command.Request) → IsLine words.now request → L.asked library.new ≡ extended (L.asked library.old) (fetched request)) }
{
    match words.request() {
        Ok(request) => answer_request(alloc, &request, library),
        Err(RequestError::NoLine) => fixed(alloc, b"refused: usage\n", Status::Usage),
        Err(RequestError::NoMemory) => Err(AllocError),
    }
}

/// Does what the words of a command ask: writes the answer, and says how it ended.
pub fn run<L: Library, K: Sink>(
    alloc: Global,
    words: &Words,
    library: &mut L,
    out: &mut K,
) -> Status
    // Each status has its cause, and comes where the cause is told. Of a write fault, and of a read fault where the library doesn't tell, only the
    // cause is said.
    ensures usage { UsageExactly words.now result }
    ensures read_fault { ReadFaultExactly words.now (L.holds library.old) (L.faults library.old) (L.faults library.new) result }
    ensures too_long { TooLongExactly words.now (L.holds library.old) result }
    ensures refused { AnswersExactly words.now (L.holds library.old) Refused result }
    ensures rejected { AnswersExactly words.now (L.holds library.old) Rejected result }
    ensures falsified { AnswersExactly words.now (L.holds library.old) Falsified result }
    ensures incomplete { AnswersExactly words.now (L.holds library.old) Incomplete result }
    ensures fine { AnswersExactly words.now (L.holds library.old) Fine result }
    // Of a text without fatal findings at most a line behind it is refused, or the name of a lemma that it doesn't have.
    ensures posed { PosedIsAnswered words.now (L.holds library.old) result }
    ensures write_fault { WriteFaultOnly (K.faults out.old) (K.faults out.new) result }

    // The headline: each verdict that stands written is so. A lemma on all traces that is verified holds in every execution that meets the
    // restrictions, steps of the adversary included, and one that is falsified is broken by the execution whose steps stand below, line by line,
    // which meets them; one on some trace that is verified is satisfied by the execution whose steps stand below, which meets them, and one that
    // is falsified holds in none that does. A lemma whose line says so is read over learning logs in place of executions.
    ensures headline { VerdictsAreTrue words.now (L.holds library.old) (K.written out.old) (K.written out.new) result }
    // And exactly: what is written of each lemma is what is to be written of it. A proof that is checked is accepted exactly where its every
    // step is an instance of a move, with the cases of that move. What is replayed is told as it is, and each rule with its forms. A graph is that of a log that
    // breaks its lemma or satisfies it, verdicts that are counted are so, and the findings that are told are those on the theory.
    ensures verdicts { VerdictsHold words.now (L.holds library.old) (L.faults library.old) (L.faults library.new) (K.written out.old) (K.written out.new) result }
    // What stands written is the whole answer, or a prefix of it, or nothing.
    ensures whole { WritesWhole words.now (L.holds library.old) (L.faults library.old) (L.faults library.new) (K.written out.old) (K.written out.new) result }
    ensures prefix { WritesPrefix words.now (L.holds library.old) (L.faults library.old) (L.faults library.new) (K.written out.old) (K.written out.new) result }
    ensures no_memory { WritesNothing (K.faults out.old) (K.faults out.new) (K.written out.old) (K.written out.new) result }
    ensures completeness { IsComplete words.now (L.holds library.old) (L.faults library.old) (L.faults library.new) (K.faults out.old) (K.faults out.new) (K.written out.old) (K.written out.new) result }

    // Nothing is fetched but what the words ask for.
    ensures asked { AsksAsRequested words.now (L.asked library.old) (L.asked library.new) result }
{
    let (text, status) = match respond(alloc, words, library) {
        Ok(answer) => answer,
        Err(_) => return Status::NoMemory,
    };
    match write_whole(out, &text) {
        Ok(()) => status,
        Err(_) => Status::WriteFault,
    }
}
