// Tests on tokens.

ghost use Rattle.std.specs.Prelude.{◌≡◌, is_some};
ghost use Rattle.sp_lex.specs.Views.{lexeme_of, sign_of};
ghost use Rattle.sp_await.specs.Keywords as keywords;
ghost use Rattle.sp_await.specs.Table as spec;
ghost use Rattle.sp_await.specs.Views.{keyword_of, kind_of};
ghost use Rattle.sp_spec_text.specs.Names as names;
ghost use Rattle.sp_spec_text.specs.Numerals as numerals;
ghost use Rattle.sp_spec_text.specs.Proofs as proofs;

use crate::keywords::{Keyword, ListItem, NamedItem, TraceKind};
use sp_lex::{Lexeme, Sign};
use sp_read_parts::words::{is_reserved, mark_at, mark_of, names_fact};

fn code(sign: Sign) -> u8
    ensures { result ≡ spec.code (sign_of sign) }
{
    match sign {
        Sign::Open => 0,
        Sign::Close => 1,
        Sign::OpenList => 2,
        Sign::CloseList => 3,
        Sign::OpenArrow => 4,
        Sign::CloseArrow => 5,
        Sign::Arrow => 6,
        Sign::Implies => 7,
        Sign::Iff => 8,
        Sign::Comma => 9,
        Sign::Colon => 10,
        Sign::Dot => 11,
        Sign::Quote => 12,
        Sign::Bang => 13,
        Sign::Tilde => 14,
        Sign::Dollar => 15,
        Sign::Hash => 16,
        Sign::At => 17,
        Sign::And => 18,
        Sign::Or => 19,
        Sign::Equals => 20,
        Sign::Less => 21,
        Sign::Dash => 22,
        Sign::OpenBrace => 23,
        Sign::CloseBrace => 24,
        Sign::Greater => 25,
        Sign::Slash => 26,
        Sign::Plus => 27,
    }
}

/// Whether it is this sign.
pub fn is_sign<'a>(wanted: Sign, lexeme: Lexeme<'a>) -> bool
    ensures { result ≡ spec.is_sign (sign_of wanted) (lexeme_of lexeme.entry) }
{
    match lexeme {
        Lexeme::Sign(found) => code(found) == code(wanted),
        Lexeme::Word(_) => false,
        Lexeme::Constant(_) => false,
        Lexeme::Solve(_) => false,
        Lexeme::Wide(_) => false,
        Lexeme::Block => false,
    }
}

/// Whether it is this word.
pub fn is_word<'a>(wanted: &str, lexeme: Lexeme<'a>) -> bool
    ensures { result ≡ spec.is_word wanted.now (lexeme_of lexeme.entry) }
{
    match lexeme {
        Lexeme::Word(found) => found == wanted,
        Lexeme::Sign(_) => false,
        Lexeme::Constant(_) => false,
        Lexeme::Solve(_) => false,
        Lexeme::Wide(_) => false,
        Lexeme::Block => false,
    }
}

/// Whether it is a constant.
pub fn is_constant<'a>(lexeme: Lexeme<'a>) -> bool
    ensures { result ≡ spec.is_constant (lexeme_of lexeme.entry) }
{
    match lexeme {
        Lexeme::Constant(_) => true,
        Lexeme::Word(_) => false,
        Lexeme::Sign(_) => false,
        Lexeme::Solve(_) => false,
        Lexeme::Wide(_) => false,
        Lexeme::Block => false,
    }
}

/// Whether it is a sign before the name of a variable.
pub fn is_mark<'a>(lexeme: Lexeme<'a>) -> bool
    ensures { result ≡ spec.is_mark (lexeme_of lexeme.entry) }
{
    match lexeme {
        Lexeme::Sign(found) => mark_at(found).is_some(),
        Lexeme::Word(_) => false,
        Lexeme::Constant(_) => false,
        Lexeme::Solve(_) => false,
        Lexeme::Wide(_) => false,
        Lexeme::Block => false,
    }
}

/// Whether it is a name.
pub fn is_name<'a>(lexeme: Lexeme<'a>) -> bool
    ensures { result ≡ spec.is_name (lexeme_of lexeme.entry) }
{
    match lexeme {
        Lexeme::Word(found) => !is_reserved(found),
        Lexeme::Sign(_) => false,
        Lexeme::Constant(_) => false,
        Lexeme::Solve(_) => false,
        Lexeme::Wide(_) => false,
        Lexeme::Block => false,
    }
}

/// Whether it is the name of a fact.
pub fn is_fact_name<'a>(lexeme: Lexeme<'a>) -> bool
    ensures { result ≡ spec.is_fact_name (lexeme_of lexeme.entry) }
{
    match lexeme {
        Lexeme::Word(found) => names_fact(found),
        Lexeme::Sign(_) => false,
        Lexeme::Constant(_) => false,
        Lexeme::Solve(_) => false,
        Lexeme::Wide(_) => false,
        Lexeme::Block => false,
    }
}

/// Whether it is the word of a sort.
pub fn is_sort<'a>(lexeme: Lexeme<'a>) -> bool
    ensures { result ≡ spec.is_sort (lexeme_of lexeme.entry) }
{
    match lexeme {
        Lexeme::Word(found) => mark_of(found).is_some(),
        Lexeme::Sign(_) => false,
        Lexeme::Constant(_) => false,
        Lexeme::Solve(_) => false,
        Lexeme::Wide(_) => false,
        Lexeme::Block => false,
    }
}

/// Whether the bytes are digits.
fn are_digits(bytes: &[u8]) -> bool
    ensures { result ≡ numerals.are_digits bytes.now }
{
    for byte in bytes {
        if !byte.is_ascii_digit() {
            return false;
        }
    }
    true
}

/// Whether a word is digits as a number is written: the first is 0 only where it stands alone.
fn is_number(word: &str) -> bool
    ensures { result ≡ numerals.is_numeral word.now }
{
    match word.as_bytes() {
        [] => false,
        [digit] => digit.is_ascii_digit(),
        [first, others @ ..] => first.is_ascii_digit() && *first != b'0' && are_digits(others),
    }
}

/// Whether it is the word of a number.
pub fn is_numeral<'a>(lexeme: Lexeme<'a>) -> bool
    ensures { result ≡ spec.is_numeral (lexeme_of lexeme.entry) }
{
    match lexeme {
        Lexeme::Word(found) => is_number(found),
        Lexeme::Sign(_) => false,
        Lexeme::Constant(_) => false,
        Lexeme::Solve(_) => false,
        Lexeme::Wide(_) => false,
        Lexeme::Block => false,
    }
}

#[tactic(auto, unfolding(sp_spec_text::specs::Names::privacy_of))]
fn says_privacy(word: &str) -> bool
    ensures { result ≡ is_some (names.privacy_of word.now) }
{
    word == "private" || word == "public" || word == "constructor" || word == "destructor"
}

/// Whether it is an attribute of a function.
pub fn is_attribute<'a>(lexeme: Lexeme<'a>) -> bool
    ensures { result ≡ spec.is_attribute (lexeme_of lexeme.entry) }
{
    match lexeme {
        Lexeme::Word(found) => says_privacy(found),
        Lexeme::Sign(_) => false,
        Lexeme::Constant(_) => false,
        Lexeme::Solve(_) => false,
        Lexeme::Wide(_) => false,
        Lexeme::Block => false,
    }
}

#[tactic(auto, unfolding(sp_spec_text::specs::Proofs::is_method))]
fn is_method(word: &str) -> bool
    ensures { result ≡ proofs.is_method word.now }
{
    word == "simplify" || word == "induction" || word == "contradiction" || word == "sorry"
}

/// Whether it is a method.
pub fn is_step<'a>(lexeme: Lexeme<'a>) -> bool
    ensures { result ≡ spec.is_step (lexeme_of lexeme.entry) }
{
    match lexeme {
        Lexeme::Word(found) => is_method(found),
        Lexeme::Solve(_) => true,
        Lexeme::Sign(_) => false,
        Lexeme::Constant(_) => false,
        Lexeme::Wide(_) => false,
        Lexeme::Block => false,
    }
}

/// Whether it is the word of a method.
pub fn is_method_word<'a>(lexeme: Lexeme<'a>) -> bool
    ensures { result ≡ spec.is_method_word (lexeme_of lexeme.entry) }
{
    match lexeme {
        Lexeme::Word(found) => is_method(found),
        Lexeme::Sign(_) => false,
        Lexeme::Constant(_) => false,
        Lexeme::Solve(_) => false,
        Lexeme::Wide(_) => false,
        Lexeme::Block => false,
    }
}

/// Whether it is a block of text.
pub fn is_block<'a>(lexeme: Lexeme<'a>) -> bool
    ensures { result ≡ spec.is_block (lexeme_of lexeme.entry) }
{
    match lexeme {
        Lexeme::Block => true,
        Lexeme::Word(_) => false,
        Lexeme::Sign(_) => false,
        Lexeme::Constant(_) => false,
        Lexeme::Solve(_) => false,
        Lexeme::Wide(_) => false,
    }
}

/// Whether it is an annotation of a fact.
#[tactic(auto, unfolding(sp_spec_text::specs::Names::is_annotation))]
pub fn is_annotation<'a>(lexeme: Lexeme<'a>) -> bool
    ensures { result ≡ names.is_annotation (lexeme_of lexeme.entry) }
{
    match lexeme {
        Lexeme::Word(found) => found == "no_precomp",
        Lexeme::Sign(Sign::Plus) => true,
        Lexeme::Sign(Sign::Dash) => true,
        Lexeme::Sign(_) => false,
        Lexeme::Constant(_) => false,
        Lexeme::Solve(_) => false,
        Lexeme::Wide(_) => false,
        Lexeme::Block => false,
    }
}

/// Whether it is the word of an attribute of lemmas that may have a value.
pub fn has_value<'a>(lexeme: Lexeme<'a>) -> bool
    ensures { result ≡ spec.is_such spec.has_value (lexeme_of lexeme.entry) }
{
    is_word("hide_lemma", lexeme) || is_word("heuristic", lexeme)
}

/// Whether it is the word behind the dash of this kind of lemmas.
pub fn is_traces<'a>(kind: TraceKind, lexeme: Lexeme<'a>) -> bool
    ensures { result ≡ spec.is_word (keywords.traces_word (kind_of kind)) (lexeme_of lexeme.entry) }
{
    match kind {
        TraceKind::All => is_word("traces", lexeme),
        TraceKind::Exists => is_word("trace", lexeme),
    }
}

#[tactic(auto, unfolding(crate::specs::Keywords::keyword_of, sp_spec_text::specs::Attributes::is_restriction))]
fn word_keyword(word: &str) -> Keyword
    ensures { keyword_of result ≡ keywords.keyword_of word.now }
{
    if word == "restriction" || word == "axiom" {
        Keyword::Names(NamedItem::Restriction)
    } else if word == "rule" {
        Keyword::Names(NamedItem::Rule)
    } else if word == "lemma" {
        Keyword::Names(NamedItem::Lemma)
    } else if word == "builtins" {
        Keyword::Lists(ListItem::Builtins)
    } else if word == "functions" {
        Keyword::Lists(ListItem::Functions)
    } else if word == "equations" {
        Keyword::Lists(ListItem::Equations)
    } else if word == "heuristic" {
        Keyword::Lists(ListItem::Heuristic)
    } else {
        Keyword::Neither
    }
}

/// The item that it begins as its first word.
pub fn keyword<'a>(lexeme: Lexeme<'a>) -> Keyword
    ensures { keyword_of result ≡ spec.keyword (lexeme_of lexeme.entry) }
{
    match lexeme {
        Lexeme::Word(found) => word_keyword(found),
        Lexeme::Sign(_) => Keyword::Neither,
        Lexeme::Constant(_) => Keyword::Neither,
        Lexeme::Solve(_) => Keyword::Neither,
        Lexeme::Wide(_) => Keyword::Neither,
        Lexeme::Block => Keyword::Neither,
    }
}
