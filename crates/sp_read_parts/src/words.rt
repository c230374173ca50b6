ghost use Rattle.sp_lex.specs.Views.{sign_of};
ghost use Rattle.std.specs.Prelude.{◌≡◌, option_map};
ghost use Rattle.sp_spec_text.specs.Names as names;
ghost use Rattle.sp_read_parts.specs.Views as view;

use crate::written::Mark;
use sp_lex::Sign;

/// Whether a word is no name anywhere.
#[tactic(auto, unfolding(sp_spec_text::specs::Names::is_reserved))]
pub fn is_reserved(word: &str) -> bool
    ensures { result ≡ names.is_reserved word.now }
{
    word == "end"
        || word == "let"
        || word == "in"
        || word == "not"
        || word == "All"
        || word == "Ex"
        || word == "last"
        || word == "solve"
}

/// Whether it begins with a capital.
pub fn is_capital(word: &str) -> bool
    ensures { result ≡ names.is_capital word.now }
{
    match word.as_bytes() {
        [first, ..] => first.is_ascii_uppercase(),
        [] => false,
    }
}

/// Whether a word is the name of a fact.
pub fn names_fact(word: &str) -> bool
    ensures { result ≡ names.names_fact word.now }
{
    is_capital(word) && !is_reserved(word)
}

/// The mark that this word is, behind the colon of a variable.
#[tactic(auto, unfolding(sp_spec_text::specs::Names::mark_of))]
pub fn mark_of(word: &str) -> Option<Mark>
    ensures { option_map view.mark result ≡ names.mark_of word.now }
{
    if word == "fresh" {
        Some(Mark::Fresh)
    } else if word == "pub" {
        Some(Mark::Public)
    } else if word == "msg" {
        Some(Mark::Message)
    } else if word == "node" {
        Some(Mark::Time)
    } else {
        None
    }
}

/// The mark that this sign is, before the name of a variable.
pub fn mark_at(sign: Sign) -> Option<Mark>
    ensures { option_map view.mark result ≡ names.mark_at (sign_of sign) }
{
    match sign {
        Sign::Tilde => Some(Mark::Fresh),
        Sign::Dollar => Some(Mark::Public),
        Sign::Hash => Some(Mark::Time),
        _ => None,
    }
}
