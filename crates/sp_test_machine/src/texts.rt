// The texts of terms, traces and steps.

use sp_fact::ground_fact::Trace;
use sp_fact::ground_term::GroundTerm;
use sp_fact::step::Step;
use sp_show::step::step_line;
use sp_show::term::{write_arguments, write_term};
use sp_show::trace::trace_block;
use sp_term::term::Term;
use sp_test_make::ground::{applied, apply_symbol, given, paired, public, shown, use_rule};
use std::alloc::{AllocError, Global};
use std::test::Fail;

/// The text of a term.
pub(crate) fn term_text(alloc: Global, term: &GroundTerm) -> Result<String, AllocError> {
    let mut text = String::new(alloc);
    write_term(&mut text, term)?;
    Ok(text)
}

/// The texts of terms, between commas.
pub(crate) fn terms_text(alloc: Global, terms: &Vec<GroundTerm>) -> Result<String, AllocError> {
    let mut text = String::new(alloc);
    write_arguments(&mut text, terms)?;
    Ok(text)
}

// <<'a', ~n1>, 'b', c>
fn row(alloc: Global) -> Result<GroundTerm, AllocError> {
    let last = applied(alloc, "c", Vec::new(alloc))?;
    let right = paired(alloc, public(alloc, "b")?, last)?;
    let left = paired(alloc, public(alloc, "a")?, Term::FreshName(1))?;
    paired(alloc, left, right)
}

// f('a', <<'a', ~n1>, 'b', c>)
fn over_row(alloc: Global) -> Result<GroundTerm, AllocError> {
    let mut args = Vec::new(alloc);
    args.push(public(alloc, "a")?)?;
    args.push(row(alloc)?)?;
    applied(alloc, "f", args)
}

// A(<<'a', ~n1>, 'b', c>, 'd'), B()
fn one_step(alloc: Global) -> Result<Trace, AllocError> {
    let mut args = Vec::new(alloc);
    args.push(row(alloc)?)?;
    args.push(public(alloc, "d")?)?;
    let mut actions = Vec::new(alloc);
    actions.push(shown(alloc, "A", args)?)?;
    actions.push(shown(alloc, "B", Vec::new(alloc))?)?;
    let entries = vec![in alloc; actions]?;
    Ok(Trace { entries })
}

#[test]
fn terms_and_traces_have_their_texts(rt: HostRuntime) -> Result<(), Fail> {
    let alloc = rt.alloc();
    assert_eq!(rt;
        term_text(alloc, &row(alloc)?)?.as_str(),
        "<<'a', ~n1>, 'b', c>"
    );
    assert_eq!(rt;
        term_text(alloc, &over_row(alloc)?)?.as_str(),
        "f('a', <<'a', ~n1>, 'b', c>)"
    );
    assert_eq!(rt;
        trace_block(alloc, &one_step(alloc)?)?.as_str(),
        "trace:\nA(<<'a', ~n1>, 'b', c>, 'd'), B()\nend of trace\n"
    );
    Ok(())
}

// Send, with ~n2 for k and 'a' for x
fn sending(alloc: Global) -> Result<Step, AllocError> {
    let mut values = Vec::new(alloc);
    values.push(given(alloc, "k", Term::FreshName(2))?)?;
    values.push(given(alloc, "x", public(alloc, "a")?)?)?;
    use_rule(alloc, "Send", values)
}

// the pair of 'a' and 'b'
fn pairing(alloc: Global) -> Result<Step, AllocError> {
    let mut terms = Vec::new(alloc);
    terms.push(public(alloc, "a")?)?;
    terms.push(public(alloc, "b")?)?;
    apply_symbol(alloc, "pair", terms)
}

#[test]
fn steps_have_their_lines(rt: HostRuntime) -> Result<(), Fail> {
    let alloc = rt.alloc();
    assert_eq!(rt;
        step_line(alloc, &Step::MakeFresh(Term::FreshName(12)))?.as_str(),
        "fresh ~n12"
    );
    assert_eq!(rt;
        step_line(alloc, &Step::KnowPublic(public(alloc, "a")?))?.as_str(),
        "pub 'a'"
    );
    assert_eq!(rt;
        step_line(alloc, &sending(alloc)?)?.as_str(),
        "rule Send: k = ~n2, x = 'a'"
    );
    assert_eq!(rt;
        step_line(alloc, &pairing(alloc)?)?.as_str(),
        "make <'a', 'b'>"
    );
    Ok(())
}
