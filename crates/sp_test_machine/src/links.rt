// Destructions of equations, and links of chains by them: tables whose answers are worked out by hand.

use sp_destruct::destruction::{Destruction, chains_of};
use sp_destruct::search::{link, link_by};
use sp_fact::signature::Signature;
use sp_norm::instance::{Valuing, value};
use sp_show::term::{write_arguments, write_term};
use sp_term::apply::apply_all;
use sp_term::subst::Values;
use sp_term::term::{Sort, Variable};
use sp_test_make::ground::public;
use sp_test_make::values::{equations_in, ground_in, grounds_in, symbols_with};
use std::alloc::{AllocError, Global};
use std::test::Fail;

// Public names for the variables.
fn names(alloc: Global) -> Result<Values, AllocError> {
    let mut values = Values::new(alloc);
    for (number, text) in [(0, "x"), (1, "y"), (2, "z"), (3, "w")] {
        let variable = Variable {
            sort: Sort::Msg,
            number,
        };
        values.push(variable, public(alloc, text)?)?;
    }
    Ok(values)
}

// The line of a destruction, with these values of its variables: PATTERN | SIDES | RESULT.
fn write_line(
    alloc: Global,
    out: &mut String,
    values: &Values,
    destruction: &Destruction,
) -> Result<(), AllocError> {
    write_term(out, &value(alloc, values, &destruction.pattern)?)?;
    out.push_str(" | ")?;
    write_arguments(
        out,
        &apply_all(alloc, &Valuing { values }, &destruction.sides)?,
    )?;
    out.push_str(" | ")?;
    write_term(out, &value(alloc, values, &destruction.result)?)?;
    out.push_str("\n")
}

// The destructions of the signature, one a line.
fn texts_of(alloc: Global, signature: &Signature) -> Result<String, AllocError> {
    let mut text = String::new(alloc);
    let values = names(alloc)?;
    for destruction in &chains_of(alloc, signature)? {
        write_line(alloc, &mut text, &values, destruction)?;
    }
    Ok(text)
}

/// Symbols beside those of pairs, each by its name, its arity and whether it is private.
type Symbols = &'static [(&'static str, usize, bool)];

// The signature of the symbols, and of these equations alone.
fn signature(alloc: Global, symbols: Symbols, equations: &[&str]) -> Result<Signature, Fail> {
    let symbols = symbols_with(alloc, symbols)?;
    let equations = equations_in(alloc, equations)?;
    Ok(Signature { symbols, equations })
}

/// Symbols, an equation, and its destructions.
static DESTRUCTIONS: [(Symbols, &str, &str); 3] = [
    (
        &[("senc", 2, false), ("sdec", 2, false)],
        "sdec(senc(x, y), y) = x",
        "senc('x', 'y') | 'y' | 'x'\n",
    ),
    (
        &[("senc", 2, false), ("sdec", 2, true)],
        "sdec(senc(x, y), y) = x",
        "",
    ),
    (
        &[("d", 2, false), ("g", 1, false), ("c", 2, false)],
        "d(g(c(x, y)), y) = x",
        "g(c('x', 'y')) | 'y' | 'x'\nc('x', 'y') | 'y' | 'x'\n",
    ),
];

fn destruction_cases() -> &'static [(Symbols, &'static str, &'static str)] {
    &DESTRUCTIONS
}

#[test]
fn equations_have_their_destructions(rt: HostRuntime) -> Result<(), Fail> {
    let alloc = rt.alloc();
    assert_eq!(rt;
        texts_of(alloc, &Signature::pairs(alloc)?)?.as_str(),
        "<'x', 'y'> |  | 'x'\n<'x', 'y'> |  | 'y'\n"
    );
    for (symbols, equation, lines) in destruction_cases() {
        let signature = signature(alloc, symbols, &[equation])?;
        assert_eq!(rt; texts_of(alloc, &signature)?.as_str(), *lines, "{equation}");
    }
    Ok(())
}

// The two of pairs, that of encryption, and that with variables beside it: the messages beside f(x, y) have variables of their own.
fn destructions(alloc: Global) -> Result<Vec<Destruction>, Fail> {
    let symbols = &[
        ("sdec", 2, false),
        ("e", 3, false),
        ("f", 2, false),
        ("g", 2, false),
    ];
    let equations = [
        "fst(<x, y>) = x",
        "snd(<x, y>) = y",
        "sdec(senc(x, y), y) = x",
        "e(f(x, y), g(z, w), z) = x",
    ];
    Ok(chains_of(alloc, &signature(alloc, symbols, &equations)?)?)
}

/// The messages learnt, from which message to which, and the destruction with the places of its side messages.
static LINKS: [(&[&str], &str, &str, &str); 13] = [
    (&[], "<'a', 'b'>", "'a'", "0:"),
    (&[], "<'a', 'b'>", "'b'", "1:"),
    (&[], "<'a', 'a'>", "'a'", "0:"),
    (&["'c'"], "<'a', 'b'>", "'c'", "none"),
    (&["'j'", "'k'"], "senc('m', 'k')", "'m'", "2: 1"),
    (&["'k'", "'k'"], "senc('m', 'k')", "'m'", "2: 0"),
    (&["'j'"], "senc('m', 'k')", "'m'", "none"),
    (&["'k'"], "senc('m', 'k')", "'k'", "none"),
    (&["g('q', 'r')", "'q'"], "f('a', 'b')", "'a'", "3: 0 1"),
    // 'p', which the first g would want, isn't learnt
    (
        &["g('p', 'r')", "'q'", "g('q', 'r')"],
        "f('a', 'b')",
        "'a'",
        "3: 2 1",
    ),
    // both may be taken
    (
        &["'q'", "g('q', 'r')", "g('q', 's')"],
        "f('a', 'b')",
        "'a'",
        "3: 1 0",
    ),
    (&["g('p', 'r')", "'q'"], "f('a', 'b')", "'a'", "none"),
    (&["g('q', 'r')", "'q'"], "f('a', 'b')", "'b'", "none"),
];

fn links() -> &'static [(
    &'static [&'static str],
    &'static str,
    &'static str,
    &'static str,
)] {
    &LINKS
}

// NUMBER: PLACES
fn link_text(alloc: Global, number: usize, places: &Vec<usize>) -> Result<String, AllocError> {
    let mut text = format!(in alloc; "{number}:")?;
    for place in places {
        text.push_str(format!(in alloc; " {place}")?.as_str())?;
    }
    Ok(text)
}

// The link by one of the destructions, or none, where these messages are learnt.
fn link_of(
    alloc: Global,
    destructions: &Vec<Destruction>,
    learnt: &[&str],
    from: &str,
    to: &str,
) -> Result<String, Fail> {
    let learnt = grounds_in(alloc, learnt)?;
    let from = ground_in(alloc, from)?;
    let to = ground_in(alloc, to)?;
    let text = match link(alloc, destructions, &learnt, &from, &to)? {
        Some(found) => link_text(alloc, found.destruction, &found.places),
        None => format!(in alloc; "none"),
    };
    Ok(text?)
}

#[test]
fn links_are_found(rt: HostRuntime) -> Result<(), Fail> {
    let alloc = rt.alloc();
    let destructions = destructions(alloc)?;
    assert_eq!(rt; destructions.len(), 4);
    for (place, (learnt, from, to, answer)) in links().iter().enumerate() {
        let text = link_of(alloc, &destructions, learnt, from, to)?;
        assert_eq!(rt; text.as_str(), *answer, "{place}");
    }
    Ok(())
}

// The link by this destruction, where 'k' is learnt, from senc('m', 'k') to 'm'.
fn decryption_by(alloc: Global, destruction: &Destruction) -> Result<Option<Vec<usize>>, Fail> {
    let learnt = grounds_in(alloc, &["'k'"])?;
    let from = ground_in(alloc, "senc('m', 'k')")?;
    let to = public(alloc, "m")?;
    Ok(link_by(alloc, destruction, &learnt, &from, &to)?)
}

#[test]
fn one_destruction_is_tried(rt: HostRuntime) -> Result<(), Fail> {
    let alloc = rt.alloc();
    let destructions = destructions(alloc)?;
    assert_eq!(rt; destructions.len(), 4);
    let places = decryption_by(alloc, &destructions[2])?.ok_or("no link")?;
    assert_eq!(rt; link_text(alloc, 2, &places)?.as_str(), "2: 0");
    let none = decryption_by(alloc, &destructions[3])?.is_none();
    assert!(rt; none);
    Ok(())
}
