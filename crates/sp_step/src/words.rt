// The words of moves: the table by which a move is written and read. A new move is a line of `Words::of`, and one of `of_method` or `of_goal`.

ghost use Rattle.std.specs.Prelude.{◌≡◌, ◌∷◌, [], ◌++◌, ℕ, IfOk, OnOk, map, option_map, string_bytes};
ghost use Rattle.std.specs.Str.{bytes_eq};
ghost use Rattle.sp_spec_system.specs.Move as moves;
ghost use Rattle.sp_spec_system.specs.Words as spec;
ghost use Rattle.sp_moves.specs.View.{side_of, move_of};
ghost use Rattle.sp_step.specs.WordsView.{argument_of, said_of, words_of};

use crate::moves::Move;
pub use sp_moves::moves::Side;
use std::alloc::{AllocError, Global};

/// What the word of a goal is followed by.
#[derive(Debug, PartialEq, Eq, Drop)]
pub enum Argument {
    /// a place in a list
    Place(u128),
    /// the time of an event
    Time(u128),
    /// the number of a message variable
    Variable(u128),
    /// a term that stands for a name
    Side(Side),
}

/// The words of a move.
#[derive(Drop)]
pub enum Words {
    /// a word alone
    Method(&'static str),
    /// the word of a goal, and what it is followed by
    Goal(&'static str, Vec<Argument>),
}

impl Words {
    /// The words of a move. A text can hold the numbers of each move in memory.
    ///
    /// # Errors
    ///
    /// `AllocError` where memory is wanting.
    pub fn of(alloc: Global, chosen: &Move) -> Result<Words, AllocError>
        ensures words { IfOk result (λ w. words_of w ≡ spec.words_of (move_of chosen.now)) }
        ensures within { OnOk result (spec.AreWithin (spec.words_of (move_of chosen.now))) }
    {
        match chosen {
            Move::Simplify => Ok(Words::Method("simplify")),
            Move::Contradiction => Ok(Words::Method("contradiction")),
            Move::Unproved => Ok(Words::Method("sorry")),
            Move::Solved => Ok(Words::Method("SOLVED")),
            Move::Induction => Ok(Words::Method("induction")),
            Move::Or(place) => one(alloc, "or", Argument::Place(*place)),
            Move::Action(place) => one(alloc, "action", Argument::Place(*place)),
            Move::Premise(time, place) => {
                let (time, place) = (Argument::Time(*time), Argument::Place(*place));
                two(alloc, "premise", time, place)
            }
            Move::Know(time) => one(alloc, "know", Argument::Time(*time)),
            Move::Chain(time) => one(alloc, "chain", Argument::Time(*time)),
            Move::Source(time) => one(alloc, "source", Argument::Time(*time)),
            Move::Compare(first, second) => {
                let (first, second) = (Argument::Time(*first), Argument::Time(*second));
                two(alloc, "compare", first, second)
            }
            Move::Top(number) => one(alloc, "top", Argument::Variable(*number)),
            Move::Same(left, right) => {
                let left = Argument::Side(left.clone()?);
                let right = Argument::Side(right.clone()?);
                two(alloc, "same", left, right)
            }
            Move::MoreEvents => Ok(Words::Goal("more", Vec::new(alloc))),
            Move::Finish => Ok(Words::Goal("finish", Vec::new(alloc))),
        }
    }

    /// Whether the words stand alone: no `by` is before them, and no case behind them.
    pub fn stand_alone(&self) -> bool
        ensures { result ≡ spec.stand_alone (words_of self.now) }
    {
        match self {
            Words::Method(word) => *word == "SOLVED",
            Words::Goal(..) => false,
        }
    }

    /// Puts the text of the words at the end.
    ///
    /// # Errors
    ///
    /// `AllocError` where memory is wanting.
    pub fn write(&self, out: &mut String) -> Result<(), AllocError>
        ensures { OnOk result (string_bytes out.new ≡ string_bytes out.old ++ spec.words_text (words_of self.now)) }
    {
        match self {
            Words::Method(word) => out.push_str(word),
            Words::Goal(word, arguments) => {
                out.push_str("solve( ")?;
                out.push_str(word)?;
                write_arguments(out, arguments)?;
                out.push_str(" )")
            }
        }
    }
}

fn one(alloc: Global, word: &'static str, argument: Argument) -> Result<Words, AllocError>
    ensures { IfOk result (λ w. words_of w ≡ spec.goal word.now (argument_of argument ∷ [])) }
{
    let arguments = vec![in alloc; argument]?;
    Ok(Words::Goal(word, arguments))
}

fn two(
    alloc: Global,
    word: &'static str,
    first: Argument,
    second: Argument,
) -> Result<Words, AllocError>
    ensures { IfOk result (λ w. words_of w ≡ spec.goal word.now (argument_of first ∷ argument_of second ∷ [])) }
{
    let arguments = vec![in alloc; first, second]?;
    Ok(Words::Goal(word, arguments))
}

fn write_side(out: &mut String, side: &Side) -> Result<(), AllocError>
    ensures { OnOk result (string_bytes out.new ≡ string_bytes out.old ++ spec.side_text (side_of side.now)) }
{
    match side {
        Side::Fresh(number) => write!(out, "~{number}"),
        Side::Public(number) => write!(out, "${number}"),
        Side::Constant(name) => {
            out.push_str("'")?;
            out.push_str(name.text.as_str())?;
            out.push_str("'")
        }
    }
}

fn write_argument(out: &mut String, argument: &Argument) -> Result<(), AllocError>
    ensures { OnOk result (string_bytes out.new ≡ string_bytes out.old ++ spec.argument_text (argument_of argument.now)) }
{
    match argument {
        Argument::Place(place) => write!(out, "{place}"),
        Argument::Time(time) => write!(out, "{time}"),
        Argument::Variable(number) => write!(out, "{number}"),
        Argument::Side(side) => write_side(out, side),
    }
}

fn write_arguments(out: &mut String, arguments: &[Argument]) -> Result<(), AllocError>
    ensures { OnOk result (string_bytes out.new ≡ string_bytes out.old ++ spec.arguments_text (map argument_of arguments.now)) }
{
    for argument in arguments {
        out.push_str(" ")?;
        write_argument(out, argument)?;
    }
    Ok(())
}

// ---- the inverse

/// Whether these are the bytes of a word.
pub fn is(word: &[u8], wanted: &str) -> bool
    ensures { result ≡ bytes_eq word.now wanted.now }
{
    word == wanted.as_bytes()
}

/// The move that is said by a word alone.
#[tactic(auto, unfolding(sp_spec_system::specs::Words::of_method))]
pub fn of_method(word: &str) -> Option<Move>
    ensures { option_map move_of result ≡ spec.of_method word.now }
{
    if word == "simplify" {
        Some(Move::Simplify)
    } else if word == "contradiction" {
        Some(Move::Contradiction)
    } else if word == "sorry" {
        Some(Move::Unproved)
    } else if word == "SOLVED" {
        Some(Move::Solved)
    } else if word == "induction" {
        Some(Move::Induction)
    } else {
        None
    }
}

/// What stands behind the word of a goal.
#[derive(Debug, PartialEq, Eq, Drop)]
pub enum Said {
    /// a number in digits
    Digits(u128),
    /// `~N`, `$N`, or a constant in quotes
    Named(Side),
}

fn by_none(chosen: Move, said: &[Said]) -> Option<Move>
    ensures { option_map move_of result ≡ spec.by_none (move_of chosen) (map said_of said.now) }
{
    match said {
        [] => Some(chosen),
        _ => None,
    }
}

fn one_number(said: &[Said]) -> Option<u128>
    ensures { (move : ℕ → moves.Move) → option_map move result ≡ spec.by_one move (map said_of said.now) }
{
    match said {
        [Said::Digits(number)] => Some(*number),
        _ => None,
    }
}

fn two_numbers(said: &[Said]) -> Option<(u128, u128)>
    ensures { (move : ℕ → ℕ → moves.Move) → option_map (λ p. move p.0 p.1) result ≡ spec.by_two move (map said_of said.now) }
{
    match said {
        [Said::Digits(first), Said::Digits(second)] => Some((*first, *second)),
        _ => None,
    }
}

fn is_constant(side: &Side) -> bool
    ensures { result ≡ spec.is_constant_side (side_of side.now) }
{
    matches!(side, Side::Constant(_))
}

fn by_sides(said: &[Said]) -> Result<Option<Move>, AllocError>
    ensures { IfOk result (λ o. option_map move_of o ≡ spec.by_sides (map said_of said.now)) }
{
    match said {
        [Said::Named(left), Said::Named(right)] if !(is_constant(left) && is_constant(right)) => {
            let left = left.clone()?;
            let right = right.clone()?;
            Ok(Some(Move::Same(left, right)))
        }
        _ => Ok(None),
    }
}

/// The move that is said by the word of a goal, and by what stands behind it.
///
/// # Errors
///
/// `AllocError` where memory is wanting.
#[tactic(auto, unfolding(sp_spec_system::specs::Words::of_goal))]
pub fn of_goal(word: &[u8], said: &[Said]) -> Result<Option<Move>, AllocError>
    ensures { IfOk result (λ o. option_map move_of o ≡ spec.of_goal word.now (map said_of said.now)) }
{
    if is(word, "or") {
        Ok(one_number(said).map(Move::Or))
    } else if is(word, "action") {
        Ok(one_number(said).map(Move::Action))
    } else if is(word, "premise") {
        Ok(two_numbers(said).map(|(time, place)| Move::Premise(time, place)))
    } else if is(word, "know") {
        Ok(one_number(said).map(Move::Know))
    } else if is(word, "chain") {
        Ok(one_number(said).map(Move::Chain))
    } else if is(word, "source") {
        Ok(one_number(said).map(Move::Source))
    } else if is(word, "compare") {
        Ok(two_numbers(said).map(|(first, second)| Move::Compare(first, second)))
    } else if is(word, "top") {
        Ok(one_number(said).map(Move::Top))
    } else if is(word, "same") {
        by_sides(said)
    } else if is(word, "more") {
        Ok(by_none(Move::MoreEvents, said))
    } else if is(word, "finish") {
        Ok(by_none(Move::Finish, said))
    } else {
        Ok(None)
    }
}
