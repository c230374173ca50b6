// The lines of a replay are read as steps.

use sp_fact::ground_term::GroundTerm;
use sp_fact::signature::Signature;
use sp_fact::step::Step;
use sp_read_steps::{StepLines, read_steps};
use sp_term::term::Term;
use std::alloc::{AllocError, Global};
use std::test::Fail;

// a constant in angles, a fresh name by its number, a symbol before its arguments in square brackets
#[cycle(write)]
fn write_term(alloc: Global, out: &mut String, term: &GroundTerm) -> Result<(), AllocError> {
    match term {
        Term::Var(never) => match never.leaf {},
        Term::Constant(name) => {
            out.push_str("<")?;
            out.push_str(name.text.as_str())?;
            out.push_str(">")
        }
        Term::FreshName(number) => {
            let text = format!(in alloc; "{number}")?;
            out.push_str(&text)
        }
        Term::App(symbol, terms, _) => {
            out.push_str(symbol.text.as_str())?;
            write_terms(alloc, out, terms)
        }
    }
}

#[cycle(write)]
fn write_terms(alloc: Global, out: &mut String, terms: &Vec<GroundTerm>) -> Result<(), AllocError> {
    out.push_str("[")?;
    for term in terms {
        write_term(alloc, out, term)?;
        out.push_str(" ")?;
    }
    out.push_str("]")
}

fn write_over(
    alloc: Global,
    out: &mut String,
    word: &str,
    term: &GroundTerm,
) -> Result<(), AllocError> {
    out.push_str(word)?;
    out.push_str(" ")?;
    write_term(alloc, out, term)
}

fn write_step(alloc: Global, out: &mut String, step: &Step) -> Result<(), AllocError> {
    match step {
        Step::MakeFresh(term) => write_over(alloc, out, "MakeFresh", term),
        Step::TakeOut(term) => write_over(alloc, out, "TakeOut", term),
        Step::PutIn(term) => write_over(alloc, out, "PutIn", term),
        Step::KnowPublic(term) => write_over(alloc, out, "KnowPublic", term),
        Step::MakeOwn(term) => write_over(alloc, out, "MakeOwn", term),
        Step::UseRule(rule, values) => {
            out.push_str("UseRule ")?;
            out.push_str(rule.text.as_str())?;
            for given in values {
                out.push_str(" ")?;
                write_over(alloc, out, given.variable.text.as_str(), &given.value)?;
            }
            Ok(())
        }
        Step::ApplySymbol(symbol, terms) => {
            out.push_str("ApplySymbol ")?;
            out.push_str(symbol.text.as_str())?;
            write_terms(alloc, out, terms)
        }
    }
}

/// The steps of the text over the symbols of pairs, or the number of the line that is no step's.
#[tactic(auto, using(sp_spec_printed::proofs::SymbolNames::of_pairs))]
fn read(alloc: Global, text: &str) -> Result<String, AllocError> {
    let signature = Signature::pairs(alloc)?;
    let found = read_steps(alloc, &signature.symbols, text.as_bytes())?;
    let mut out = String::new(alloc);
    match &found {
        StepLines::Unread(number) => {
            let told = format!(in alloc; "unread {number}")?;
            out.push_str(&told)?;
        }
        StepLines::Steps(steps) => {
            for step in steps {
                write_step(alloc, &mut out, step)?;
                out.push_str(";")?;
            }
        }
    }
    Ok(out)
}

/// Texts and their steps.
static STEPS: [(&str, &str); 15] = [
    ("", ""),
    ("\n \t\r\n", ""),
    ("pub 'a'", "KnowPublic <a>;"),
    ("in fst(<'a', 'b'>)", "PutIn fst[pair[<a> <b> ] ];"),
    (
        "fresh ~n340282366920938463463374607431768211455",
        "MakeFresh 340282366920938463463374607431768211455;",
    ),
    ("make c", "ApplySymbol c[];"),
    ("make nosuch('a')", "ApplySymbol nosuch[<a> ];"),
    ("make pair('a')", "ApplySymbol pair[<a> ];"),
    (
        "make <'a', 'b', 'c'>",
        "ApplySymbol pair[<a> pair[<b> <c> ] ];",
    ),
    ("rule Foo:", "UseRule Foo;"),
    ("rule Make: k = ~n1, k = ~n2", "UseRule Make k 1 k 2;"),
    ("rule M.1_a: x.1 = ~n1", "UseRule M.1_a x.1 1;"),
    (
        "pub <'a', 'b', 'c'>",
        "KnowPublic pair[<a> pair[<b> <c> ] ];",
    ),
    (
        "pub <<'a', 'b'>, 'c'>",
        "KnowPublic pair[pair[<a> <b> ] <c> ];",
    ),
    (
        "\n  own ~n7 \r\n\nout snd('x y')\t\n",
        "MakeOwn 7;TakeOut snd[<x y> ];",
    ),
];

fn step_cases() -> &'static [(&'static str, &'static str)] {
    &STEPS
}

#[test]
fn steps_are_read(rt: HostRuntime) -> Result<(), Fail> {
    for (text, steps) in step_cases().iter() {
        assert_eq!(rt; read(rt.alloc(), text)?.as_str(), *steps, "{text}");
    }
    Ok(())
}

/// Lines that are no steps'.
static OTHERS: [&str; 36] = [
    "jump",
    "fresh ~n0",
    "fresh ~n01",
    "fresh ~n",
    "fresh ~n1.5",
    "fresh ~n340282366920938463463374607431768211456",
    "rule end:",
    "rule Make: end = ~n1",
    "rule M.a: x = ~n1",
    "rule All: All = ~n1",
    "rule Make:k = ~n1",
    "rule Make: k = ~n1,",
    "rule Make: k=~n1",
    "make 'a'",
    "make c()",
    "make pair('a', 'b')",
    "make <'a', <'b', 'c'>>",
    "make fst(nosuch('a'))",
    "make end",
    "in h('a')",
    "in fst",
    "in fst()",
    "pub <'a', <'b', 'c'>>",
    "pub <'a'>",
    "pub <'a','b'>",
    "pub pair('a','b')",
    "pub pair('a', 'b')",
    "pub fst('a', 'b')",
    "pub  'a'",
    "pub ''",
    "pub 'a",
    "pub 'a' 'b'",
    "pub 'a'b",
    "pub\t'a'",
    "Pub 'a'",
    "pub",
];

fn other_lines() -> &'static [&'static str] {
    &OTHERS
}

#[test]
fn other_lines_are_no_steps(rt: HostRuntime) -> Result<(), Fail> {
    let alloc = rt.alloc();
    for text in other_lines().iter() {
        let lines = format!(in alloc; "\nfresh ~n1\n{text}\njump")?;
        assert_eq!(rt; read(alloc, &lines)?.as_str(), "unread 3", "{text}");
    }
    Ok(())
}
