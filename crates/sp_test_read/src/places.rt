// The places where texts are refused that say no theory.

use sp_place::refused_at;
use std::alloc::{AllocError, Global};
use std::test::Fail;

/// Texts, and the places where they are refused.
static THEORIES: [(&[u8], Option<usize>); 26] = [
    (b"", Some(0)),
    (b"theory X begin end", None),
    (b"theory X begin end ( 'x", None),
    (b"theory X begin", Some(14)),
    (b"theory X begin \xff", Some(15)),
    (b"theory X begin /* ab", Some(15)),
    (b"theory X rule 'a", Some(9)),
    (b"theory end begin end", Some(7)),
    (b"theory X begin rule R: [ F(x), ] --> [ ] end", Some(31)),
    (b"theory X begin rule R: [ F(x), !G() ] --> [ ] end", None),
    (
        b"theory X begin rule R: [ Fr(~k) ] --[ A(~k) ]-> [ ] end",
        None,
    ),
    (b"theory X begin rule R: [ f(x) ] --> [ ] end", Some(25)),
    (b"theory X begin rule R [ ] --> [ ] end", Some(26)),
    (b"theory X begin rule R: [ ] --[ A(x) ] end", Some(36)),
    (b"theory X begin rule R: [ ] --> [ ] by sorry end", Some(38)),
    (b"theory X begin lemma a: all-traces \"T\" end", None),
    (b"theory X begin lemma a: all-trace \"T\" end", Some(28)),
    (b"theory X begin lemma a: exists \"T\" end", Some(31)),
    (
        b"theory X begin lemma a: \"T\" SOLVED rule R: [ ] --> [ ] end",
        None,
    ),
    (b"theory X begin lemma a: \"T\" SOLVED SOLVED end", Some(42)),
    (b"theory X begin lemma a: \"T\" simplify end", Some(37)),
    (b"theory X begin lemma a: \"T\" by end", Some(31)),
    (
        b"theory X begin lemma a: \"T\" simplify solve( x ) case b by sorry next case c SOLVED qed end",
        None,
    ),
    (
        b"theory X begin lemma a: \"T\" simplify case b by sorry end",
        Some(53),
    ),
    (
        b"theory X begin lemma a: \"T\" simplify case in by sorry qed end",
        Some(42),
    ),
    (
        b"theory X begin lemma a: \"T\" simplify case b by sorry next c by sorry qed end",
        Some(58),
    ),
];

fn theory_cases() -> &'static [(&'static [u8], Option<usize>)] {
    &THEORIES
}

#[test]
fn theories_are_refused_at_their_first_wrong_token(rt: HostRuntime) -> Result<(), Fail> {
    for (text, place) in theory_cases().iter() {
        assert_eq!(rt; refused_at(rt.alloc(), text)?, *place, "{text:?}");
    }
    Ok(())
}

/// Where the theory with these items is refused, of which the first token stands at 15.
fn items_refused_at(alloc: Global, items: &[u8]) -> Result<Option<usize>, AllocError> {
    let mut text = b"theory X begin ".to_vec(alloc)?;
    text.extend_from_slice(items)?;
    text.extend_from_slice(b" end")?;
    refused_at(alloc, &text)
}

/// Items, and the places of the text where they are refused.
static ITEMS: [(&[u8], Option<usize>); 35] = [
    (b"rule (modulo E) R [color=x, [y]]: [ ] --> [ ]", None),
    (b"rule R [ ] --> [ ]", Some(26)),
    (b"rule R [ end", Some(24)),
    (b"rule (modulo in) R: [ ] --> [ ]", Some(28)),
    (b"rule R: let x = y in [ ] --> [ ]", None),
    (b"rule R: let x = y z = x in [ ] --> [ ]", None),
    (b"rule R: let in [ ] --> [ ]", Some(27)),
    (b"rule R: let x = y [ ] --> [ ]", Some(33)),
    (b"rule R: [ F(x)[+, no_precomp] ] --> [ ]", None),
    (b"rule R: [ F(x)[] ] --> [ ]", Some(30)),
    (b"rule R: [ F(x)[x] ] --> [ ]", Some(30)),
    (b"rule R: [ F(\xe2\x8a\xa4) ] --> [ ]", Some(27)),
    (b"rule R [\xe2\x8a\xa4 {* ] *}]: [ ] --> [ ]", None),
    (b"restriction a: \"T\"", None),
    (b"axiom a: \"T\"", None),
    (b"restriction a [x]: \"T\"", Some(29)),
    (b"restriction a: T", Some(30)),
    (b"lemma a [reuse, hide_lemma=b, hide_lemma, x]: \"T\"", None),
    (b"lemma a [reuse=x]: \"T\"", Some(29)),
    (b"lemma a []: \"T\"", Some(24)),
    (b"lemma a [hide_lemma=]: \"T\"", Some(35)),
    (
        b"lemma a: \"\xe2\x88\x80 x. \xc2\xacF(x) @ i \xe2\x87\x92 \xe2\x8a\xa5\"",
        None,
    ),
    (b"lemma a: \"\xe2\x8a\xa4\" \xe2\x8a\xa4", Some(30)),
    (b"lemma a: \"A(x)[+] @ i\"", None),
    (b"lemma a: \"A(x)[+] = y\"", Some(33)),
    (b"lemma a: \"!A(x)[-] @ i\"", None),
    (b"lemma a: \"KU(\xe2\x8a\xa4) @ i\"", None),
    (b"x {* any *}", None),
    (b"rule {* any *}", None),
    (b"end {* *}", None),
    (b"x {* any", Some(17)),
    (b"lemma a: \"T\" SOLVED {* x *}", None),
    (b"lemma a: \"T\" by {* x *}", None),
    (b"lemma a: \"T\" simplify by {* x *}", Some(40)),
    (b"lemma a: \"T\" x {* x *} {* x *}", Some(38)),
];

fn item_cases() -> &'static [(&'static [u8], Option<usize>)] {
    &ITEMS
}

#[test]
fn items_are_refused_at_their_first_wrong_token(rt: HostRuntime) -> Result<(), Fail> {
    for (items, place) in item_cases().iter() {
        assert_eq!(rt; items_refused_at(rt.alloc(), items)?, *place, "{items:?}");
    }
    Ok(())
}

/// What stands behind the word of a heuristic and its colon, and the places of the text where that is refused: its words end where an item
/// begins, and which of them are the item's shows some tokens later.
static WORDS: [(&[u8], Option<usize>); 32] = [
    (b"s", None),
    (b"s t", None),
    (b"s rule R: [ ] --> [ ]", None),
    (b"rule R: [ ] --> [ ]", Some(32)),
    (b"s rule (modulo E) R: [ ] --> [ ]", None),
    (b"s rule R [ ]: [ ] --> [ ]", None),
    (b"s lemma a [reuse]: \"T\"", None),
    (b"s restriction a [x]: \"T\"", Some(42)),
    (b"s axiom a: \"T\"", None),
    (b"s rule builtins: hashing", None),
    (b"s rule builtins: [ ] --> [ ]", None),
    (b"s rule equations: let x = y in [ ] --> [ ]", None),
    (b"s restriction functions: \"T\"", None),
    (b"s restriction functions: f/1", None),
    (b"s lemma builtins: all-traces \"T\"", None),
    (b"s lemma builtins: all-traces, hashing", None),
    (b"s lemma builtins: all-trace \"T\"", Some(54)),
    (b"s lemma builtins: exists-trace \"T\"", None),
    (b"s lemma functions: all-traces \"T\"", None),
    (b"s lemma functions: all/0", None),
    (b"s lemma equations: exists-trace \"T\"", None),
    (b"s lemma equations: exists = x", None),
    (b"s lemma heuristic: all-traces \"T\"", None),
    (b"s lemma heuristic: all traces", None),
    (b"heuristic: heuristic: a", Some(35)),
    (b"heuristic heuristic: a", None),
    (b"lemma a: \"T\"", Some(33)),
    (b"s {* x *}", Some(28)),
    (b"{* x *}", Some(26)),
    (b"s t {* x *}", None),
    (b"s t: u", Some(29)),
    (b"", Some(27)),
];

fn word_cases() -> &'static [(&'static [u8], Option<usize>)] {
    &WORDS
}

#[test]
fn words_of_a_heuristic_end_where_an_item_begins(rt: HostRuntime) -> Result<(), Fail> {
    for (words, place) in word_cases().iter() {
        let mut items = b"heuristic: ".to_vec(rt.alloc())?;
        items.extend_from_slice(words)?;
        assert_eq!(rt; items_refused_at(rt.alloc(), &items)?, *place, "{words:?}");
    }
    Ok(())
}

/// Where the theory of a lemma is refused that says what stands between these quotes, of which the first token stands at 25.
fn formula_refused_at(alloc: Global, formula: &[u8]) -> Result<Option<usize>, AllocError> {
    let mut text = b"theory N begin lemma a: \"".to_vec(alloc)?;
    text.extend_from_slice(formula)?;
    text.extend_from_slice(b"\" end")?;
    refused_at(alloc, &text)
}

/// Formulas, and the places behind the first quote where they are refused.
static FORMULAS: [(&[u8], Option<usize>); 31] = [
    (b"(x) = y", None),
    (b"((x) = y)", None),
    (b"(T)", None),
    (b"((T))", None),
    (b"(T) = x", None),
    (b"((T) = x)", None),
    (b"(x = y) & z = w", None),
    (b"T < x", None),
    (b"(x)", Some(3)),
    (b"((x))", Some(5)),
    (b"(x) < y", Some(4)),
    (b"(T) < y", Some(4)),
    (b"((x) & T)", Some(5)),
    (b"x & y", Some(2)),
    (b"T & & T", Some(4)),
    (b"T <=> F <=> T", Some(8)),
    (b"All x. T <=> F <=> T", None),
    (b"All x. T <=> F <=> T <=> F", Some(21)),
    (b"(T <=> F) <=> T", None),
    (b"not not T", Some(4)),
    (b"not (not T)", None),
    (b"F() @ i", None),
    (b"F(x:fresh, 'a') @ #i", None),
    (b"In(x) @ i", None),
    (b"KU(x) @ i", None),
    (b"x:day = y", Some(2)),
    (b"All . T", Some(4)),
    (b"All x = T", Some(6)),
    (b"", Some(0)),
    (b"T ==> F ==> T", None),
    (b"F(x) @ i & !A(y) @ j ==> #i = #j", None),
];

fn formula_cases() -> &'static [(&'static [u8], Option<usize>)] {
    &FORMULAS
}

#[test]
fn formulas_are_refused_at_their_first_wrong_token(rt: HostRuntime) -> Result<(), Fail> {
    for (formula, place) in formula_cases().iter() {
        let found = formula_refused_at(rt.alloc(), formula)?;
        let place = place.and_then(|place: usize| place.checked_add(25));
        assert_eq!(rt; found, place, "{formula:?}");
    }
    Ok(())
}

/// This many times the first text, then the second, and as many times the third.
fn nested(
    alloc: Global,
    count: usize,
    before: &[u8],
    inside: &[u8],
    behind: &[u8],
) -> Result<Vec<u8>, AllocError> {
    let mut made = before.repeat(alloc, count)?;
    made.extend_from_slice(inside)?;
    made.extend_from_slice(&behind.repeat(alloc, count)?)?;
    Ok(made)
}

/// What stands how often before what, and what as often behind it, and the place where that is refused.
static NESTED: [(usize, &[u8], &[u8], &[u8], Option<usize>); 4] = [
    (128, b"(", b"T", b")", None),
    (129, b"(", b"T", b"", Some(153)),
    (128, b"(", b"!A(x) @ i", b"", Some(153)),
    (129, b"T ==> ", b"T", b"", Some(795)),
];

fn nested_cases() -> &'static [(
    usize,
    &'static [u8],
    &'static [u8],
    &'static [u8],
    Option<usize>,
)] {
    &NESTED
}

#[test]
fn nesting_has_an_end(rt: HostRuntime) -> Result<(), Fail> {
    let alloc = rt.alloc();
    for (count, before, inside, behind, place) in nested_cases().iter() {
        let formula = nested(alloc, *count, before, inside, behind)?;
        let found = formula_refused_at(alloc, &formula)?;
        assert_eq!(rt; found, *place, "{count}");
    }
    Ok(())
}
