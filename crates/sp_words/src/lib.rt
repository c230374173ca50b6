// Reads the words of the command: which of them are a line of it, and what that asks for.
// Below stands `clap` alone, which cuts the words into a subcommand and the values of its arguments; above stands the top call (sp_top).
// It promises that the answer is the request of the line, or that the words are no line, by the meaning that `clap` gives the command; and that
// a line asks for one thing.
#![tactic(auto)]

ghost use Rattle.std.specs.Prelude.{◌≡◌, ◌≢◌, [], IfOk, IfErr, MatchOption, map};
ghost use Rattle.clap.specs.Words.{found_of, rows_of, subcommand_rows_of};
ghost use Rattle.sp_words.specs.Line.{AskFor, AsksFor, IsLine, IsNoLine, IsTextAsked};
ghost use Rattle.sp_words.specs.Line.{command_word, faults, named, request_of, text_of};
ghost use Rattle.sp_words.specs.Line.{Request as Asked, Text as Meant};
ghost use Rattle.sp_words.specs.Laws.{LinesAskOnce};

mod arguments;
mod numbers;

use arguments::spthy;
use clap::ArgMatches;
use clap::error::ErrorKind;
use numbers::{budget_by, size_by};
use std::alloc::{AllocError, Global};
use std::convert::AsStr;
use thiserror::Error;

/// What the words ask to do with a text.
#[derive(Clone, Copy, Debug, PartialEq, Eq)]
pub enum Command {
    /// A proof is grown for each lemma.
    Prove,
    /// The proof that stands below each lemma is checked.
    Check,
    /// The lines behind the theory are replayed as the steps of an execution.
    Replay,
    /// The rules are written, each with its forms.
    Variants,
    /// The findings on the theory are written, and the warnings, with how many there are.
    Wf,
    /// The log that is found for the lemma is written as a graph.
    Graph,
    /// A theory that is made of a number is proved, and its verdicts are counted.
    Gen,
}

/// Which text is meant.
#[derive(Clone, Copy, Debug)]
pub enum Text<'a> {
    /// That of this name, which is fetched.
    File(&'a str),
    /// The theory that is made of this number.
    Made(u16),
}

/// What the words of a command ask for.
#[derive(Clone, Copy, Debug)]
pub struct Request<'a> {
    /// what is to be done with a text
    pub command: Command,
    /// which text is meant
    pub text: Text<'a>,
    /// how many moves a proof may have that is grown
    pub budget: u64,
    /// the lemma that alone is meant, where one is named
    pub lemma: Option<&'a str>,
}

/// Why there is no request.
#[derive(Clone, Copy, Debug, PartialEq, Eq, Error)]
pub enum RequestError {
    /// The words are no line of the command.
    #[error("the words are no line of the command")]
    NoLine,
    /// Memory was wanting.
    #[error("out of memory")]
    NoMemory,
}

impl From<AllocError> for RequestError {
    ghost use Rattle.sp_words.specs.declared.RequestError.{RequestError};

    ghost from_gives = { λ _ cause. cause ≡ RequestError.NoMemory };

    fn from(_: AllocError) -> RequestError {
        RequestError::NoMemory
    }
}

impl From<clap::Error> for RequestError {
    ghost use Rattle.clap.specs.Words.{kind_of};
    ghost use Rattle.sp_words.specs.Line.{cause_of};

    ghost from_gives = { λ error cause. cause ≡ cause_of (kind_of error) };

    fn from(error: clap::Error) -> RequestError {
        match error.kind() {
            ErrorKind::OutOfMemory => RequestError::NoMemory,
            _ => RequestError::NoLine,
        }
    }
}

impl Command {
    /// The command of this name.
    fn of_word(word: &str) -> Option<Command>
        ensures { MatchOption result ((command : Command) → ¬ (word.now ≡ command_word command)) (λ command. word.now ≡ command_word command) }
    {
        match word {
            "prove" => Some(Command::Prove),
            "check" => Some(Command::Check),
            "replay" => Some(Command::Replay),
            "variants" => Some(Command::Variants),
            "wf" => Some(Command::Wf),
            "graph" => Some(Command::Graph),
            "gen" => Some(Command::Gen),
            _ => None,
        }
    }

    /// Which text is meant, by the values of the subcommand's arguments.
    fn text_by<'a>(self, values: &ArgMatches<'a>) -> Option<Text<'a>>
        ensures { MatchOption result ((text : Meant) → ¬ IsTextAsked self (rows_of (found_of values.now)) text)
            (λ t. IsTextAsked self (rows_of (found_of values.now)) (text_of t)) }
    {
        match self {
            Command::Gen => Some(Text::Made(size_by(values.get_str("N")?)?)),
            _ => Some(Text::File(values.get_str("FILE")?)),
        }
    }
}

/// What the words ask for, the program's name first.
///
/// # Errors
///
/// `NoLine` where the words are no line of the command, a request for help among them; `NoMemory` where memory was wanting.
pub fn read_request<'a, S: AsStr>(
    alloc: Global,
    words: &'a [S],
) -> Result<Request<'a>, RequestError>
    ensures request { IfOk result (λ r. IsLine (map S.text words.entry.now) (request_of r)) }
    ensures no_line { IfErr result (λ cause. cause ≡ RequestError.NoLine → IsNoLine (map S.text words.entry.now)) }
{
    let matches = parsed(alloc, words)?;
    match found(&matches) {
        Some(request) => Ok(request),
        None => Err(RequestError::NoLine),
    }
}

/// What `clap` makes of the words.
fn parsed<'a, S: AsStr>(alloc: Global, words: &'a [S]) -> Result<ArgMatches<'a>, RequestError>
    ensures taken { IfOk result (λ _. faults (map S.text words.entry.now) ≡ []) }
    ensures names { IfOk result (λ m. subcommand_rows_of m ≡ named (map S.text words.entry.now)) }
    ensures refused { IfErr result (λ cause. cause ≡ RequestError.NoLine → faults (map S.text words.entry.now) ≢ []) }
{
    let command = spthy(alloc)?;
    match command.try_get_matches_from(words) {
        Ok(matches) => Ok(matches),
        Err(error) => Err(RequestError::from(error)),
    }
}

/// What the subcommand that was read asks for.
fn found<'a>(matches: &ArgMatches<'a>) -> Option<Request<'a>>
    ensures { MatchOption result ((request : Asked) → ¬ AsksFor (subcommand_rows_of matches.now) request)
        (λ r. AsksFor (subcommand_rows_of matches.now) (request_of r)) }
{
    match matches.subcommand() {
        Some((word, values)) => asked(word, values),
        None => None,
    }
}

/// What the subcommand of this name asks for by the values of its arguments.
fn asked<'a>(word: &str, values: &ArgMatches<'a>) -> Option<Request<'a>>
    ensures { MatchOption result ((request : Asked) → ¬ AskFor word.now (rows_of (found_of values.now)) request)
        (λ r. AskFor word.now (rows_of (found_of values.now)) (request_of r)) }
{
    let command = Command::of_word(word)?;
    let text = command.text_by(values)?;
    let budget = budget_by(values.get_str("budget"))?;
    let lemma = values.get_str("lemma");
    match (command, lemma) {
        (Command::Graph, None) => None,
        _ => Some(Request {
            command,
            text,
            budget,
            lemma,
        }),
    }
}

/// A line of the command asks for one thing.
pub fn lines_ask_once()
    ensures { LinesAskOnce }
{}
