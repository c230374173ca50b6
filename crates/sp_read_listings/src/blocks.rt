// Blocks of text.

ghost use Rattle.std.specs.Prelude.{◌≡◌, ◌∷◌, MatchOption, IfSome, ◌≤◌, ◌<◌, length};
ghost use Rattle.sp_spec_text.specs.Token as lexemes;
ghost use Rattle.sp_spec_text.specs.Lists.{IsNotFirst, NoReading};
ghost use Rattle.sp_read_listings.specs.Listings.{IsBlock};
ghost use Rattle.sp_read_listings.specs.Views.{seen_from};

use sp_lex::{Lexeme, Token};
use sp_read_parts::cursor::split;
use sp_read_parts::terms::name;

/// The place behind a block of text, if one stands first.
pub fn block(tokens: &[Token], at: usize) -> Option<usize>
    ensures value { MatchOption result (IsNotFirst lexemes.block (seen_from tokens.now at)) (λ rest. seen_from tokens.now at ≡ lexemes.block ∷ seen_from tokens.now rest) }
    ensures further { IfSome result (λ rest. (at < rest) × (rest ≤ length tokens.now)) }
{
    match split(tokens, at) {
        Some((Lexeme::Block, rest)) => Some(rest),
        _ => None,
    }
}

/// A name with a block of text behind it, and the place behind both.
#[tactic(auto, using(crate::proofs::Making::blocks))]
pub fn text_block<'a>(tokens: &[Token<'a>], at: usize) -> Option<(&'a str, usize)>
    ensures value { MatchOption result (NoReading IsBlock (seen_from tokens.now at)) (λ x. IsBlock (seen_from tokens.now at) x.0.now (seen_from tokens.now x.1)) }
    ensures further { IfSome result (λ x. (at < x.1) × (x.1 ≤ length tokens.now)) }
{
    let (found, ahead) = name(tokens, at)?;
    let rest = block(tokens, ahead)?;
    Some((found, rest))
}
