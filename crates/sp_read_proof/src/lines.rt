// The lines of a proof.

ghost use Rattle.std.specs.Prelude.{◌≡◌, MatchOption, IfSome, ◌≤◌, ◌<◌, length};
ghost use Rattle.sp_spec_text.specs.Lists.{NoReading};
ghost use Rattle.sp_read_parts.specs.Views.{seen_from};
ghost use Rattle.sp_written.specs.Views as written;
ghost use Rattle.sp_spec_text.specs.Proofs as grammar;
ghost use Rattle.sp_spec_text.specs.Proofs.{SpellsMethod};
ghost use Rattle.sp_read_proof.specs.Lines.{IsLine, IsBehind};
ghost use Rattle.sp_read_proof.specs.View as view;

use crate::frames::{Behind, Line};
use sp_lex::{Lexeme, Token};
use sp_read_parts::cursor::{behind, split};
use sp_read_parts::terms::name;
use sp_written::Method;

/// Whether the word is a method.
#[tactic(auto, unfolding(sp_spec_text::specs::Proofs::is_method))]
fn is_method(word: &str) -> bool
    ensures { result ≡ grammar.is_method word.now }
{
    word == "simplify" || word == "induction" || word == "contradiction" || word == "sorry"
}

/// A method, and the place behind it.
#[tactic(auto, using(crate::proofs::Methods::methods))]
fn method<'a>(tokens: &[Token<'a>], at: usize) -> Option<(Method<'a>, usize)>
    ensures value { MatchOption result (NoReading SpellsMethod (seen_from tokens.now at)) (λ x. SpellsMethod (seen_from tokens.now at) (written.method x.0) (seen_from tokens.now x.1)) }
    ensures further { IfSome result (λ x. (at < x.1) × (x.1 ≤ length tokens.now)) }
{
    let (first, rest) = split(tokens, at)?;
    match first {
        Lexeme::Word(word) => {
            if is_method(word) {
                Some((Method::Word(word), rest))
            } else {
                None
            }
        }
        Lexeme::Solve(text) => Some((Method::Goal(text), rest)),
        Lexeme::Constant(_) => None,
        Lexeme::Sign(_) => None,
        Lexeme::Wide(_) => None,
        Lexeme::Block => None,
    }
}

/// A line of a proof, and the place behind it.
#[tactic(auto, using(crate::proofs::Methods::whole_lines))]
pub fn line<'a>(tokens: &[Token<'a>], at: usize) -> Option<(Line<'a>, usize)>
    ensures value { MatchOption result (NoReading IsLine (seen_from tokens.now at)) (λ x. IsLine (seen_from tokens.now at) (view.line_of x.0) (seen_from tokens.now x.1)) }
    ensures further { IfSome result (λ x. (at < x.1) × (x.1 ≤ length tokens.now)) }
{
    if let Some(rest) = behind("SOLVED", tokens, at) {
        return Some((Line::Leaf(Method::Word("SOLVED")), rest));
    }
    if let Some(next) = behind("by", tokens, at) {
        let (found, rest) = method(tokens, next)?;
        return Some((Line::Leaf(found), rest));
    }
    let (found, ahead) = method(tokens, at)?;
    let Some(inside) = behind("case", tokens, ahead) else {
        return Some((Line::Alone(found), ahead));
    };
    let (case, rest) = name(tokens, inside)?;
    Some((Line::Cases(found, case), rest))
}

/// What stands behind a case, and the place behind it.
#[tactic(auto, using(crate::proofs::Methods::case_ends))]
pub fn behind_case<'a>(tokens: &[Token<'a>], at: usize) -> Option<(Behind<'a>, usize)>
    ensures value { MatchOption result (NoReading IsBehind (seen_from tokens.now at)) (λ x. IsBehind (seen_from tokens.now at) (view.behind_of x.0) (seen_from tokens.now x.1)) }
    ensures further { IfSome result (λ x. (at < x.1) × (x.1 ≤ length tokens.now)) }
{
    if let Some(rest) = behind("qed", tokens, at) {
        return Some((Behind::Ended, rest));
    }
    let next = behind("next", tokens, at)?;
    let inside = behind("case", tokens, next)?;
    let (case, rest) = name(tokens, inside)?;
    Some((Behind::Another(case), rest))
}
