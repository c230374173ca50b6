ghost use Rattle.std.specs.Prelude.{◌≡◌, MatchOption, IfSome, ◌≤◌, ◌<◌, length};
ghost use Rattle.sp_lex.specs.Views.{lexeme_of};
ghost use Rattle.sp_spec_text.specs.Lists.{NoReading};
ghost use Rattle.sp_spec_text.specs.Names as names;
ghost use Rattle.sp_read_parts.specs.Parts.{AreAnnotations, IsAnnotated};
ghost use Rattle.sp_read_parts.specs.Views.{seen_from};

use crate::cursor::{after, split};
use sp_lex::{Lexeme, Sign, Token};

/// Whether it may stand in the brackets behind a fact.
#[tactic(auto, unfolding(sp_spec_text::specs::Names::is_annotation))]
fn is_annotation(lexeme: Lexeme) -> bool
    ensures { result ≡ names.is_annotation (lexeme_of lexeme.entry) }
{
    match lexeme {
        Lexeme::Word(word) => word == "no_precomp",
        Lexeme::Sign(sign) => sign == Sign::Plus || sign == Sign::Dash,
        Lexeme::Constant(_) => false,
        Lexeme::Solve(_) => false,
        Lexeme::Wide(_) => false,
        Lexeme::Block => false,
    }
}

/// The place behind annotations with commas and the bracket that closes them.
#[tactic(auto, using(crate::proofs::Annotated::lists))]
fn annotation_list(tokens: &[Token], at: usize) -> Option<usize>
    ensures value { MatchOption result (NoReading AreAnnotations (seen_from tokens.now at)) (λ rest. AreAnnotations (seen_from tokens.now at) tt (seen_from tokens.now rest)) }
    ensures further { IfSome result (λ rest. (at < rest) × (rest ≤ length tokens.now)) }
{
    let mut rest = at;
    loop {
        let (found, ahead) = split(tokens, rest)?;
        if !is_annotation(found) {
            return None;
        }
        if let Some(end) = after(Sign::CloseList, tokens, ahead) {
            return Some(end);
        }
        rest = after(Sign::Comma, tokens, ahead)?;
    }
}

/// The place behind the annotations of a fact, which is this place where it has none.
#[tactic(auto, using(crate::proofs::Annotated::either_way))]
pub fn annotations(tokens: &[Token], at: usize) -> Option<usize>
    requires { at ≤ length tokens.now }
    ensures value { MatchOption result (NoReading IsAnnotated (seen_from tokens.now at)) (λ rest. IsAnnotated (seen_from tokens.now at) tt (seen_from tokens.now rest)) }
    ensures further { IfSome result (λ rest. (at ≤ rest) × (rest ≤ length tokens.now)) }
{
    match after(Sign::OpenList, tokens, at) {
        Some(inside) => annotation_list(tokens, inside),
        None => Some(at),
    }
}
