// Proofs whose steps stand each below the one before, read and checked, and grown; and formulas with many parts side by side.

use crate::calls::{assert_answer, words_on_text};
use crate::proofs::THEORY;
use crate::steps::FIRST;
use sp_io::{MemLibrary, MemSink};
use sp_top::run;
use std::alloc::{AllocError, Global};
use std::test::Fail;

// the first theory with a proof of this many steps
fn nested(alloc: Global, steps: usize) -> Result<String, AllocError> {
    let mut text = String::from_str(alloc, THEORY)?;
    for _step in 0..steps {
        text.push_str("simplify\n")?;
    }
    text.push_str("by sorry\nend\n")?;
    Ok(text)
}

#[test]
fn deep_proofs_are_checked(rt: HostRuntime) -> Result<(), Fail> {
    let alloc = rt.alloc();
    let line = "once (all-traces): rejected at step 2 (instance)\n";
    for steps in [10_000, 100_000] {
        let text = nested(alloc, steps)?;
        assert_answer(&rt, alloc, "check", text.as_str(), 3, line)?;
    }
    Ok(())
}

// a rule that does this many actions at once, each with a value of its own
fn with_actions(alloc: Global, actions: usize) -> Result<String, AllocError> {
    let mut text = String::from_str(alloc, "rule R: [ ] --[ A0($x0)")?;
    for place in 1..actions {
        write!(text, ", A{place}($x{place})")?;
    }
    text.push_str(" ]-> [ ]\n")?;
    Ok(text)
}

// a step of that rule has this value for each of them
fn with_value(alloc: Global, value: usize, actions: usize) -> Result<String, AllocError> {
    let mut text = format!(in alloc; "(Ex #k. A0('{value}')@k")?;
    for place in 1..actions {
        write!(text, " & A{place}('{value}')@k")?;
    }
    text.push(')')?;
    Ok(text)
}

// a theory whose lemma asks for this many steps, each action of which is a step of the proof
fn wide(alloc: Global, steps: usize, actions: usize) -> Result<String, AllocError> {
    let rule = with_actions(alloc, actions)?;
    let first = with_value(alloc, 0, actions)?;
    let mut text = format!(in alloc;
        "theory Wide begin\n{rule}lemma wide: exists-trace \"{first}"
    )?;
    for value in 1..steps {
        let part = with_value(alloc, value, actions)?;
        write!(text, " & {part}")?;
    }
    text.push_str("\"\nend\n")?;
    Ok(text)
}

fn has_line(written: &[u8], line: &str) -> bool {
    for found in written.split(|byte| *byte == b'\n') {
        if found == line.as_bytes() {
            return true;
        }
    }
    false
}

#[test]
fn deep_trees_are_grown(rt: HostRuntime) -> Result<(), Fail> {
    let alloc = rt.alloc();
    let text = wide(alloc, 60, 50)?;
    let words = words_on_text(alloc, "prove")?;
    let mut library = MemLibrary::new(alloc);
    library.put("text", text.as_bytes())?;
    let mut sink = MemSink::new(alloc, 1 << 20, 100_000_000)?;
    let ended = run(alloc, &words, &mut library, &mut sink);
    // The first step simplifies, the last one ends the search.
    let is_told = has_line(sink.written(), "wide (exists-trace): verified (3002 steps)");
    assert!(rt; is_told);
    assert_eq!(rt; ended as u8, 0);
    Ok(())
}

// the lemma that there is a step with A('c'), and this many times more of it, joined by the sign
fn joined(alloc: Global, sign: char, parts: usize) -> Result<String, AllocError> {
    let mut text = String::from_str(
        alloc,
        "theory Joined begin\nrule R: [ ] --[ A('c') ]-> [ ]\nlemma all: exists-trace \"Ex #i. A('c')@i & (A('c')@i",
    )?;
    for _part in 0..parts {
        write!(text, " {sign} A('c')@i")?;
    }
    text.push_str(")\"\n")?;
    Ok(text)
}

#[test]
fn lemmas_of_many_parts_are_proved(rt: HostRuntime) -> Result<(), Fail> {
    let alloc = rt.alloc();
    for sign in ['&', '|'] {
        let lemma = joined(alloc, sign, 1_000)?;
        let text = format!(in alloc; "{lemma}end\n")?;
        let words = words_on_text(alloc, "prove")?;
        let mut library = MemLibrary::new(alloc);
        library.put("text", text.as_bytes())?;
        let mut sink = MemSink::new(alloc, 1 << 20, 1 << 20)?;
        let ended = run(alloc, &words, &mut library, &mut sink);
        // The first step simplifies, the second looks for the action's step, and then all parts stand.
        let is_told = has_line(sink.written(), "all (exists-trace): verified (3 steps)");
        assert!(rt; is_told);
        assert_eq!(rt; ended as u8, 0);
    }
    Ok(())
}

#[test]
fn proofs_of_lemmas_of_many_parts_are_checked(rt: HostRuntime) -> Result<(), Fail> {
    let alloc = rt.alloc();
    let line = "all (exists-trace): analysis incomplete (0 steps)\n";
    for sign in ['&', '|'] {
        for parts in [10_000, 50_000] {
            let lemma = joined(alloc, sign, parts)?;
            let text = format!(in alloc; "{lemma}by sorry\nend\n")?;
            assert_answer(&rt, alloc, "check", text.as_str(), 2, line)?;
        }
    }
    Ok(())
}

// the theory of one fresh name, with a step whose value is that name, taken out of a pair beside pairs within pairs
fn with_pairs(alloc: Global, pairs: usize) -> Result<String, AllocError> {
    let mut text = String::from_str(alloc, FIRST)?;
    text.push_str("\nfresh ~n1\nrule Make: k = fst(<~n1, fst(")?;
    for _pair in 0..pairs {
        text.push('<')?;
    }
    text.push_str("'c'")?;
    for _pair in 0..pairs {
        text.push_str(", 'c'>")?;
    }
    text.push_str(")>)\n")?;
    Ok(text)
}

#[test]
fn deep_terms_are_replayed(rt: HostRuntime) -> Result<(), Fail> {
    let alloc = rt.alloc();
    let text = with_pairs(alloc, 9_000)?;
    let answer = "trace:\nA(~n1)\nend of trace\nonce (all-traces): met\n";
    assert_answer(&rt, alloc, "replay", text.as_str(), 0, answer)?;
    // Terms don't nest so deep: memory is wanting.
    let text = with_pairs(alloc, 100_000)?;
    assert_answer(&rt, alloc, "replay", text.as_str(), 8, "")?;
    Ok(())
}
