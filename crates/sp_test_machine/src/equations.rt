// Which equations are accepted, beside those of pairs: tables whose answers are worked out by hand.

use sp_conv::check::{Checked, EquationFault, check_equations};
use sp_conv::clash::clash;
use sp_conv::form::{Form, form_of};
use sp_fact::signature::Signature;
use sp_test_make::values::{equation_in, equations_in, symbols_with};
use std::alloc::Global;
use std::test::Fail;

/// The symbols beside those of pairs; the constant `secret` is private.
static SYMBOLS: [(&str, usize, bool); 4] = [
    ("d", 2, false),
    ("e", 2, false),
    ("shown", 0, false),
    ("secret", 0, true),
];

fn given_symbols() -> &'static [(&'static str, usize, bool)] {
    &SYMBOLS
}

/// The answer on these equations, behind those of pairs, which have the places 0 and 1.
fn told(alloc: Global, more: &[&str]) -> Result<String, Fail> {
    let symbols = symbols_with(alloc, given_symbols())?;
    let mut equations = Signature::pairs(alloc)?.equations;
    for text in more {
        equations.push(equation_in(alloc, text)?)?;
    }
    let answer = match check_equations(alloc, &symbols, &equations)? {
        Checked::Accepted => format!(in alloc; "accepted"),
        Checked::Faulty(EquationFault::WrongShape(place)) => format!(in alloc; "shape {place}"),
        Checked::Faulty(EquationFault::PrivateConstant(place)) => {
            format!(in alloc; "private {place}")
        }
        Checked::Faulty(EquationFault::Clash(first, second, _)) => {
            format!(in alloc; "clash {first} {second}")
        }
    };
    Ok(answer?)
}

/// Equations by themselves, and the answers.
static ALONE: [(&[&str], &str); 10] = [
    (&[], "accepted"),
    (&["d(e(x, y), y) = x"], "accepted"),
    (&["d(e(x, y), y) = shown()"], "accepted"),
    (&["d(e(x, y), y) = secret()"], "private 2"),
    (&["d(e(x, y), y) = v"], "shape 2"),
    (&["d('a', y) = y"], "shape 2"),
    (&["d(~x, y) = y"], "shape 2"),
    (&["d(fst(x), y) = y"], "shape 2"),
    (&["d(x, y) = d(x, y)"], "shape 2"),
    (&["<x, y> = y"], "shape 2"),
];

fn alone() -> &'static [(&'static [&'static str], &'static str)] {
    &ALONE
}

#[test]
fn each_equation_by_itself(rt: HostRuntime) -> Result<(), Fail> {
    for (equations, answer) in alone() {
        let told = told(rt.alloc(), equations)?;
        assert_eq!(rt; told.as_str(), *answer, "{equations:?}");
    }
    Ok(())
}

/// Equations that may clash with one another or with those of pairs, and the answers.
static TOGETHER: [(&[&str], &str); 3] = [
    (&["d(e(x, y), y) = x", "d(e(x, y), y) = x"], "accepted"),
    (&["d(e(x, y), y) = x", "d(e(x, y), y) = y"], "clash 2 3"),
    // beside fst(<x, y>) = x
    (&["fst(x) = x"], "clash 0 2"),
];

fn together() -> &'static [(&'static [&'static str], &'static str)] {
    &TOGETHER
}

#[test]
fn two_equations_clash(rt: HostRuntime) -> Result<(), Fail> {
    let alloc = rt.alloc();
    for (equations, answer) in together() {
        let told = told(alloc, equations)?;
        assert_eq!(rt; told.as_str(), *answer, "{equations:?}");
    }
    let equations = equations_in(alloc, &["d(e(x, y), y) = x"])?;
    let other = equation_in(alloc, "d(x, y) = y")?;
    assert_eq!(rt; equations.len(), 1);
    let found = clash(alloc, &equations[0], &other)?.is_some();
    assert!(rt; found);
    let symbols = symbols_with(alloc, given_symbols())?;
    let form = form_of(&symbols, &equations, &equations[0]);
    assert_eq!(rt; form, Form::WellFormed);
    Ok(())
}
