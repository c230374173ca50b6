// Formulas are read, brought into guarded form and negated, and their first unguarded variable is named.

use sp_formula::formula::Formula;
use sp_guard::guarded::is_guarded;
use sp_guard::marks::checked_form;
use sp_guard::negate::negate;
use sp_guard::unguarded::first_unguarded;
use sp_read_atoms::bindings::bindings;
use sp_read_formula::quoted::quoted_formula;
use sp_read_parts::ReadFormula;
use sp_test_make::texts::{formula_in, tokens_in};
use std::alloc::Global;
use std::test::Fail;

/// A letter for the sort of a formula.
fn letter(formula: &ReadFormula) -> char {
    match formula {
        ReadFormula::True => 'T',
        ReadFormula::False => 'F',
        ReadFormula::Happens(_, _) => '@',
        ReadFormula::Equals(_, _) => '=',
        ReadFormula::Precedes(_, _) => '<',
        ReadFormula::Not(_) => '-',
        ReadFormula::Both(_, _, _) => '&',
        ReadFormula::Either(_, _, _) => '|',
        ReadFormula::Implies(_, _) => '>',
        ReadFormula::Equivalent(_, _) => '~',
        ReadFormula::ForAll(_, _) => 'A',
        ReadFormula::ForSome(_, _) => 'E',
    }
}

/// The letter of the formula that a text begins with, and how many tokens it has with its closing quote.
fn read(alloc: Global, text: &[u8]) -> Result<Option<(char, usize)>, Fail> {
    let found = tokens_in(alloc, text)?;
    match quoted_formula(alloc, &found, 0)? {
        Some((formula, rest)) => Ok(Some((letter(&formula), rest))),
        None => Ok(None),
    }
}

/// Texts, the letters of the formulas that they begin with, and how many tokens those have.
static FORMULAS: [(&[u8], Option<(char, usize)>); 42] = [
    (b"<x, y> = z\"", Some(('=', 8))),
    (b"h(x) = h(<y>)\"", Some(('=', 12))),
    (b"f{x, y}k = z\"", Some(('=', 10))),
    (b"(f(x, g())) = 'a' & F\"", Some(('&', 15))),
    (b"H(f{<x, 'c'>}h(y), k)@i\"", Some(('@', 20))),
    (b"H(f(x)) = y\"", Some(('=', 10))),
    (b"x < h(y)\"", None),
    (b"<x, > = y\"", None),
    (b"f{} = y\"", None),
    (b"All(x) = y\"", None),
    (b"T\"", Some(('T', 2))),
    (b"(F)\" x", Some(('F', 4))),
    (b"(T) = x\"", Some(('=', 6))),
    (b"((x)) = 'a'\"", Some(('=', 8))),
    (b"T(x)@i\"", Some(('@', 7))),
    (b"!A(x, ~y)@i:node\"", Some(('@', 13))),
    (b"#i < j\"", Some(('<', 5))),
    (b"not (T) & F\"", Some(('&', 7))),
    (b"T & F | T & F\"", Some(('|', 8))),
    (b"T ==> F ==> T\"", Some(('>', 6))),
    (b"T <=> F ==> T\"", Some(('~', 6))),
    (b"All x. x = x <=> T <=> F\"", Some(('~', 11))),
    (b"(All x #i. x = x) | Ex y. T\"", Some(('|', 16))),
    (b"not All x. T\"", Some(('-', 6))),
    (b"T <=> F <=> T\"", None),
    (b"x & T\"", None),
    (b"(T\"", None),
    (b"All . T\"", None),
    (b"solve(x) = y\"", None),
    (b"x = /* y */ solve(y)\"", None),
    (
        b"\xE2\x88\x80 x #i. KU(x)@i \xE2\x87\x92 \xE2\x8A\xA4\"",
        Some(('A', 14)),
    ),
    (b"\xE2\x88\x83 x. x = x\" \xE2\x88\xA7", Some(('E', 7))),
    (b"\xC2\xAC \xE2\x8A\xA5\"", Some(('-', 3))),
    (b"T \xE2\x88\xA7 F \xE2\x88\xA8 T\"", Some(('|', 6))),
    (b"T \xE2\x87\x94 \xE2\x8A\xA5\"", Some(('~', 4))),
    (b"\xE2\x8A\xA4(x)@i\"", Some(('@', 7))),
    (b"x = \xE2\x88\x80\"", None),
    (b"T \xE2\x88\xA7\" T\"", None),
    (b"A(x)[+]@i\"", Some(('@', 10))),
    (b"!A(x)[no_precomp, -, +]@i\"", Some(('@', 15))),
    (b"A(x)[]@i\"", None),
    (b"A(x)[other]@i\"", None),
];

fn formula_cases() -> &'static [(&'static [u8], Option<(char, usize)>)] {
    &FORMULAS
}

#[test]
fn formulas_are_read(rt: HostRuntime) -> Result<(), Fail> {
    for (text, want) in formula_cases().iter() {
        assert_eq!(rt; read(rt.alloc(), text)?, *want, "{text:?}");
    }
    Ok(())
}

/// How many bindings stand behind a `let`, and how many tokens they have with their `in`.
fn bound(alloc: Global, text: &[u8]) -> Result<Option<(usize, usize)>, Fail> {
    let found = tokens_in(alloc, text)?;
    match bindings(alloc, &found, 0)? {
        Some((all, rest)) => Ok(Some((all.len(), rest))),
        None => Ok(None),
    }
}

/// Texts behind `let`, how many bindings they have, and how many tokens.
static BINDINGS: [(&[u8], Option<(usize, usize)>); 7] = [
    (b"x = y in [", Some((1, 4))),
    (b"x = f(y) ~k:msg = z in", None),
    (b"x = f(y) ~k = <x, 'c'> $a = b in in", Some((3, 19))),
    (b"x = y z:fresh = x in", Some((2, 9))),
    (b"in", None),
    (b"x = y", None),
    (b"x = in", None),
];

fn binding_cases() -> &'static [(&'static [u8], Option<(usize, usize)>)] {
    &BINDINGS
}

#[test]
fn bindings_are_read(rt: HostRuntime) -> Result<(), Fail> {
    for (text, want) in binding_cases().iter() {
        assert_eq!(rt; bound(rt.alloc(), text)?, *want, "{text:?}");
    }
    Ok(())
}

/// What a form is outermost, and how many parts, or binders and guard atoms, it has.
fn outermost(form: &Formula) -> (char, usize, usize) {
    match form {
        Formula::Truth => ('T', 0, 0),
        Formula::Falsity => ('F', 0, 0),
        Formula::Holds(_) => ('+', 0, 0),
        Formula::Fails(_) => ('-', 0, 0),
        Formula::AllOf(parts) => ('&', parts.len(), 0),
        Formula::OneOf(parts) => ('|', parts.len(), 0),
        Formula::Exists(binders, guard, _) => ('E', binders.len(), guard.len()),
        Formula::ForAll(binders, guard, _) => ('A', binders.len(), guard.len()),
    }
}

/// The outermost part of a text's form; none where it has none, or there are findings on it.
fn form(alloc: Global, text: &[u8]) -> Result<Option<(char, usize, usize)>, Fail> {
    match checked_form(alloc, &formula_in(alloc, text)?)? {
        Some(form) if is_guarded(&form) => Ok(Some(outermost(&form))),
        Some(_) => Err("unguarded".into()),
        None => Ok(None),
    }
}

/// The outermost part of the negation of a text's form.
fn negation(alloc: Global, text: &[u8]) -> Result<(char, usize, usize), Fail> {
    let form = checked_form(alloc, &formula_in(alloc, text)?)?.ok_or("form")?;
    Ok(outermost(&negate(alloc, form)?))
}

/// Texts, and the outermost parts of their forms.
static FORMS: [(&[u8], Option<(char, usize, usize)>); 14] = [
    (b"not F\"", Some(('T', 0, 0))),
    (b"All x #i. A(x)@i ==> x = x\"", Some(('A', 2, 1))),
    (b"Ex x #i. A(x)@i & x = x\"", Some(('E', 2, 2))),
    (b"Ex x y #i. A(x)@i & y = x\"", Some(('E', 3, 2))),
    (b"Ex x y #i. A(x)@i & y = y\"", None),
    (b"(Ex #i. A()@i) & T & F\"", Some(('&', 3, 0))),
    (b"not (Ex x #i. A(x)@i)\"", Some(('A', 2, 1))),
    (b"(Ex #i. A()@i) <=> (Ex #i. B()@i)\"", Some(('&', 2, 0))),
    (
        b"All x #i #j. A(x)@i & A(x)@j ==> #i < #j\"",
        Some(('A', 3, 2)),
    ),
    (b"All x. x = x\"", None),
    (b"Ex x #i. A(~x)@i\"", None),
    (b"Ex x #i. A(x)@x\"", None),
    (b"Ex #i. A(y)@i\"", None),
    (b"Ex x #i. A(x,x,x,x,x,x,x,x,x,x,x,x,x,x,x,x,x)@i\"", None),
];

fn form_cases() -> &'static [(&'static [u8], Option<(char, usize, usize)>)] {
    &FORMS
}

/// Texts, and the outermost parts of the negations of their forms.
static NEGATIONS: [(&[u8], (char, usize, usize)); 4] = [
    (b"All x #i #j. A(x)@i & A(x)@j ==> #i = #j\"", ('E', 3, 2)),
    (b"Ex x #i. A(x)@i\"", ('A', 2, 1)),
    (b"(Ex #i. A()@i) & T & F\"", ('|', 3, 0)),
    (b"F\"", ('T', 0, 0)),
];

fn negation_cases() -> &'static [(&'static [u8], (char, usize, usize))] {
    &NEGATIONS
}

#[test]
fn formulas_have_forms_and_negations(rt: HostRuntime) -> Result<(), Fail> {
    let alloc = rt.alloc();
    for (text, want) in form_cases().iter() {
        assert_eq!(rt; form(alloc, text)?, *want, "{text:?}");
    }
    for (text, want) in negation_cases().iter() {
        assert_eq!(rt; negation(alloc, text)?, *want, "{text:?}");
    }
    Ok(())
}

/// Texts, and the first variables of their formulas that aren't guarded.
static UNGUARDED: [(&[u8], Option<&str>); 16] = [
    (b"All x #i. A(x)@i ==> x = x\"", None),
    (b"All x y #i. A(x)@i ==> x = y\"", Some("y")),
    (b"All x y #i. A(y)@i ==> x = y\"", Some("x")),
    (b"Ex x #i #j. A(x)@i & #i < #j\"", Some("j")),
    (b"Ex x #i. A()@i & not A(x)@i\"", Some("x")),
    (b"Ex x. Ex y #i. A(y)@i & x = y\"", None),
    (b"Ex y. Ex x #i. A()@i & x = y\"", Some("y")),
    (b"Ex y #i. A(y)@i & (Ex x. x = y)\"", None),
    (b"Ex x. not (All y #i. A(y)@i ==> not (x = y))\"", None),
    (b"Ex x. not (Ex y #i. A(y)@i & x = y)\"", Some("x")),
    (b"Ex y. not (All x #i. A()@i ==> not (x = y))\"", Some("y")),
    (b"(Ex #i. A()@i) ==> (Ex x. x = x)\"", Some("x")),
    (b"(Ex #i. A()@i) <=> (Ex #j. B()@j)\"", None),
    (b"(Ex #i. A()@i) <=> (All x. x = x)\"", Some("x")),
    (b"(Ex y. y = y) <=> (All x. x = x)\"", Some("y")),
    (
        b"All #i. A()@i ==> not ((Ex #j. B()@j) <=> (Ex x. not (x = x)))\"",
        Some("x"),
    ),
];

fn unguarded_cases() -> &'static [(&'static [u8], Option<&'static str>)] {
    &UNGUARDED
}

#[test]
fn the_first_unguarded_variable_is_named(rt: HostRuntime) -> Result<(), Fail> {
    let alloc = rt.alloc();
    for (text, name) in unguarded_cases().iter() {
        let read = formula_in(alloc, text)?;
        assert!(rt; first_unguarded(alloc, &read)? == *name, "{text:?}");
    }
    Ok(())
}
