ghost use Rattle.sp_lex.specs.Views.{sign_of};
ghost use Rattle.std.specs.Prelude.{◌≡◌, [], ◌∷◌, MatchOption, IfSome, ◌≤◌, ◌<◌, length};
ghost use Rattle.sp_spec_text.specs.Token.{word, constant, sign};
ghost use Rattle.sp_lex.specs.Views.{lexeme_of};
ghost use Rattle.sp_spec_text.specs.Lists.{IsNotFirst, IsNoWord};
ghost use Rattle.sp_read_parts.specs.Parts.{IsNoConstant};
ghost use Rattle.sp_read_parts.specs.Views.{seen_from};

use sp_lex::{Lexeme, Sign, Token};

/// The first token as it reads, and the tokens behind it.
pub fn split<'a>(tokens: &[Token<'a>], at: usize) -> Option<(Lexeme<'a>, usize)>
    ensures value { MatchOption result (seen_from tokens.now at ≡ []) (λ x. seen_from tokens.now at ≡ lexeme_of x.0 ∷ seen_from tokens.now x.1) }
    ensures further { IfSome result (λ x. (at < x.1) × (x.1 ≤ length tokens.now)) }
{
    if at < tokens.len() {
        Some((tokens[at].lexeme, at + 1))
    } else {
        None
    }
}

/// The tokens behind this sign, if it stands first.
pub fn after<'a>(wanted: Sign, tokens: &[Token<'a>], at: usize) -> Option<usize>
    ensures value { MatchOption result (IsNotFirst (sign (sign_of wanted)) (seen_from tokens.now at)) (λ rest. seen_from tokens.now at ≡ sign (sign_of wanted) ∷ seen_from tokens.now rest) }
    ensures further { IfSome result (λ rest. (at < rest) × (rest ≤ length tokens.now)) }
{
    match split(tokens, at) {
        Some((Lexeme::Sign(found), rest)) if found == wanted => Some(rest),
        _ => None,
    }
}

/// The tokens behind this word, if it stands first.
pub fn behind<'a>(wanted: &str, tokens: &[Token<'a>], at: usize) -> Option<usize>
    ensures value { MatchOption result (IsNotFirst (word wanted.now) (seen_from tokens.now at)) (λ rest. seen_from tokens.now at ≡ word wanted.now ∷ seen_from tokens.now rest) }
    ensures further { IfSome result (λ rest. (at < rest) × (rest ≤ length tokens.now)) }
{
    match split(tokens, at) {
        Some((Lexeme::Word(found), rest)) if found == wanted => Some(rest),
        _ => None,
    }
}

/// A word, and the tokens behind it.
pub fn word<'a>(tokens: &[Token<'a>], at: usize) -> Option<(&'a str, usize)>
    ensures value { MatchOption result (IsNoWord (seen_from tokens.now at)) (λ x. seen_from tokens.now at ≡ word x.0.now ∷ seen_from tokens.now x.1) }
    ensures further { IfSome result (λ x. (at < x.1) × (x.1 ≤ length tokens.now)) }
{
    match split(tokens, at) {
        Some((Lexeme::Word(found), rest)) => Some((found, rest)),
        _ => None,
    }
}

/// A constant, and the tokens behind it.
pub fn quoted<'a>(tokens: &[Token<'a>], at: usize) -> Option<(&'a str, usize)>
    ensures value { MatchOption result (IsNoConstant (seen_from tokens.now at)) (λ x. seen_from tokens.now at ≡ constant x.0.now ∷ seen_from tokens.now x.1) }
    ensures further { IfSome result (λ x. (at < x.1) × (x.1 ≤ length tokens.now)) }
{
    match split(tokens, at) {
        Some((Lexeme::Constant(found), rest)) => Some((found, rest)),
        _ => None,
    }
}
