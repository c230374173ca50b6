// Theories are read.

use sp_pose::kind_text;
use sp_read_theory::read_theory;
use sp_written::{Item, Method, Span, WrittenLemma, WrittenStep};
use std::alloc::{AllocError, Global};
use std::test::Fail;

/// How many items a text has, the span of the last lemma's proof, and the place behind its end.
type Shape = (usize, usize, usize, usize);

/// The shape of the theory that a text says.
fn shape(alloc: Global, text: &[u8]) -> Result<Option<Shape>, AllocError> {
    let Some(theory) = read_theory(alloc, text)? else {
        return Ok(None);
    };
    let mut last = Span { from: 0, to: 0 };
    for item in &theory.items {
        if let Item::Lemma(lemma) = item {
            last = lemma.span;
        }
    }
    let count = theory.items.len();
    Ok(Some((count, last.from, last.to, theory.behind_end)))
}

/// Texts, and the shapes of their theories.
static SHAPES: [(&[u8], Option<Shape>); 28] = [
    (b"theory T begin end", Some((0, 0, 0, 18))),
    (b"theory T /* end */ begin // x\n end", Some((0, 0, 0, 34))),
    (b"theory T begin /* end", None),
    (b"theory T begin solve(x) end", None),
    (
        b"theory T begin rule R: [ ] --> [ ] rule S: [ ] --[ A('c') ]-> [ ] end \"",
        Some((2, 0, 0, 69)),
    ),
    (
        b"theory T begin lemma a: \"All x. not x = x\" end",
        Some((1, 42, 42, 46)),
    ),
    (b"theory T begin lemma a: exists-traces \"T\" end", None),
    (b"theory T begin lemma a: all-trace \"T\" end", None),
    (b"theory T begin lemma a: \"T end", None),
    (b"theory T begin lemma a: \"T\"", None),
    (b"theory T begin lemma a: \"T & \" end", None),
    (b"theory T begin rule R: [ ] --> [ ] \"T\" end", None),
    (b"theory end begin end", None),
    (
        b"theory T begin rule R: [KU('c')] --> [] end",
        Some((1, 0, 0, 43)),
    ),
    (b"theory T begin rule R: [B(x,)] --> [] end", None),
    (b"theory T begin rule let: [] --> [] end", None),
    (
        b"theory T begin rule R: [!B(((x:pub)),'c')] --> [] end",
        Some((1, 0, 0, 53)),
    ),
    // with proofs
    (
        b"theory T begin lemma a: \"T\" by sorry end",
        Some((1, 27, 36, 40)),
    ),
    (
        b"theory T begin lemma a: \"T\" /* by */ SOLVED // qed\n end",
        Some((1, 27, 43, 55)),
    ),
    (
        b"theory T begin lemma a: \"T\" simplify solve( end ) by sorry\nend",
        Some((1, 27, 58, 62)),
    ),
    (
        b"theory T begin lemma a: \"T\" simplify case x SOLVED next case y by contradiction qed rule R: [ ] --> [ ] end",
        Some((2, 27, 83, 107)),
    ),
    (
        b"theory T begin lemma a: \"T\" by sorry lemma b: \"F\" end",
        Some((2, 49, 49, 53)),
    ),
    (b"theory T begin lemma a: \"T\" by end", None),
    (
        b"theory T begin lemma a: \"T\" simplify case x by sorry end",
        None,
    ),
    (b"theory T begin lemma a: \"T\" by sorry by sorry end", None),
    (b"theory T begin by sorry end", None),
    (b"theory T begin rule R: [ ] --> [ ] by sorry end", None),
    (b"theory T begin lemma a: \"T\" simplify end", None),
];

fn shape_cases() -> &'static [(&'static [u8], Option<Shape>)] {
    &SHAPES
}

#[test]
fn theories_are_read(rt: HostRuntime) -> Result<(), Fail> {
    for (text, want) in shape_cases().iter() {
        assert_eq!(rt; shape(rt.alloc(), text)?, *want, "{text:?}");
    }
    Ok(())
}

/// Texts with the other forms of items, and the shapes of their theories.
static FORMS: [(&[u8], Option<Shape>); 30] = [
    (b"theory T begin heuristic: a b c end", Some((1, 0, 0, 35))),
    (
        b"theory T begin heuristic: s rule R : [ ] --> [ ] end",
        Some((2, 0, 0, 52)),
    ),
    (
        b"theory T begin heuristic: s rule builtins : hashing end",
        Some((2, 0, 0, 55)),
    ),
    (
        b"theory T begin heuristic: s rule builtins : [ ] --> [ ] end",
        Some((2, 0, 0, 59)),
    ),
    (
        b"theory T begin heuristic: s lemma builtins : all - traces \"T\" end",
        Some((2, 61, 61, 65)),
    ),
    (
        b"theory T begin heuristic: s lemma builtins : all - traces, hashing end",
        Some((2, 0, 0, 70)),
    ),
    (
        b"theory T begin heuristic: s lemma functions : all - traces \"T\" end",
        Some((2, 62, 62, 66)),
    ),
    (
        b"theory T begin heuristic: s axiom equations : \"T\" end",
        Some((2, 0, 0, 53)),
    ),
    (
        b"theory T begin heuristic: heuristic heuristic : a end",
        Some((2, 0, 0, 53)),
    ),
    (
        b"theory T begin heuristic: heuristic : heuristic : a end",
        None,
    ),
    (
        b"theory T begin heuristic: a text {* x *} rule {**} end",
        Some((3, 0, 0, 54)),
    ),
    (
        b"theory T begin heuristic: a rule (modulo E) R [x=[y]] : let z = 'c' y = z in [ ] --> [ ] end",
        Some((2, 0, 0, 92)),
    ),
    (b"theory T begin heuristic: rule R : [ ] --> [ ] end", None),
    (b"theory T begin heuristic: end", None),
    (b"theory T begin rule R [ ] ]: [ ] --> [ ] end", None),
    (b"theory T begin rule R: let in [ ] --> [ ] end", None),
    (
        b"theory T begin rule R: let x = y ~z = <x, x> in [ A(z)[+, no_precomp] ] --> [ KU(x)[-] ] end",
        Some((1, 0, 0, 92)),
    ),
    (
        b"theory T begin restriction r: \"T\" axiom a: \"F\" end",
        Some((2, 0, 0, 50)),
    ),
    (b"theory T begin restriction r [x]: \"T\" end", None),
    (
        b"theory T begin lemma a [reuse, sources, hide_lemma=b, heuristic=s, x]: \"T\" by sorry end",
        Some((1, 74, 83, 87)),
    ),
    (
        b"theory T begin lemma a [hide_lemma]: \"T\" end",
        Some((1, 40, 40, 44)),
    ),
    (b"theory T begin lemma a [reuse=x]: \"T\" end", None),
    (b"theory T begin lemma a []: \"T\" end", None),
    (
        b"theory T begin lemma a: \"T\" SOLVED {* x *} end",
        Some((2, 27, 27, 46)),
    ),
    (
        b"theory T begin lemma a: \"T\" SOLVED SOLVED {* x *} end",
        Some((2, 27, 34, 53)),
    ),
    (b"theory T begin lemma a: \"T\" simplify by {* *} end", None),
    (b"theory T begin lemma a: \"T\" {* x *} end", None),
    (
        b"theory T begin lemma a: \"\xe2\x88\x80 x #i. \xc2\xac (A(x)[+]@i) \xe2\x88\xa8 \xe2\x8a\xa4\" end",
        Some((1, 58, 58, 62)),
    ),
    (
        b"theory T begin builtins {* x *} builtins : hashing end",
        Some((2, 0, 0, 54)),
    ),
    (
        b"theory T begin restriction {* x *} lemma {* y *} end",
        Some((2, 0, 0, 52)),
    ),
];

fn form_cases() -> &'static [(&'static [u8], Option<Shape>)] {
    &FORMS
}

#[test]
fn forms_of_items_are_read(rt: HostRuntime) -> Result<(), Fail> {
    for (text, want) in form_cases().iter() {
        assert_eq!(rt; shape(rt.alloc(), text)?, *want, "{text:?}");
    }
    Ok(())
}

/// The lemma that an item is.
fn as_lemma<'a, 'b>(item: Option<&'b Item<'a>>) -> Result<&'b WrittenLemma<'a>, Fail> {
    match item {
        Some(Item::Lemma(lemma)) => Ok(lemma),
        _ => Err("lemma".into()),
    }
}

/// A lemma's name, the words of its kind, and where its proof stands.
fn told<'a>(lemma: &WrittenLemma<'a>) -> (&'a str, &'static str, usize, usize) {
    let span = lemma.span;
    (lemma.name, kind_text(lemma.kind), span.from, span.to)
}

#[test]
fn items_are_read(rt: HostRuntime) -> Result<(), Fail> {
    let text =
        b"theory T begin lemma a: exists-trace \"T\" rule R: [ ] --> [ ] lemma b: all-traces \"F\" end";
    let theory = read_theory(rt.alloc(), text)?.ok_or("read")?;
    assert_eq!(rt; theory.name, "T");
    let first = as_lemma(theory.items.first())?;
    assert_eq!(rt; told(first), ("a", "exists-trace", 40, 40));
    assert!(rt; first.proof.is_none());
    let last = as_lemma(theory.items.last())?;
    assert_eq!(rt; told(last), ("b", "all-traces", 84, 84));
    let text = b"theory R1 begin\nrule Make: [ Fr(~k), !B('c') ] --[ A(~k) ]-> [ ]\nend\n";
    let theory = read_theory(rt.alloc(), text)?.ok_or("read")?;
    let Some(Item::Rule(rule)) = theory.items.first() else {
        return Err("rule")?;
    };
    assert!(rt; rule.bindings.is_empty());
    let rule = &rule.rule;
    assert_eq!(rt; rule.name, "Make");
    assert_eq!(rt; rule.facts.premises.len(), 2);
    assert_eq!(rt; rule.facts.actions.len(), 1);
    assert_eq!(rt; rule.facts.conclusions.len(), 0);
    Ok(())
}

/// Whether a step of a proof says this.
fn says(step: &WrittenStep, text: &[u8]) -> bool {
    match step.method {
        Method::Word(word) => word.as_bytes() == text,
        Method::Goal(goal) => goal == text,
    }
}

#[test]
fn a_lemma_is_read_with_its_proof(rt: HostRuntime) -> Result<(), Fail> {
    let text =
        b"theory R1 begin\nrule Make: [ Fr(~k) ] --[ A(~k) ]-> [ ]\nlemma once: \"All x #i #j. A(x)@i & A(x)@j ==> #i = #j\"\nsimplify\nsolve( action 0 )\n  case Make\n  solve( action 0 )\n    case Make\n    by contradiction\n  qed\nqed\n\nend\n";
    let theory = read_theory(rt.alloc(), text)?.ok_or("read")?;
    assert_eq!(rt; shape(rt.alloc(), text)?, Some((2, 110, 214, 219)));
    let lemma = as_lemma(theory.items.last())?;
    let proof = lemma.proof.as_ref().ok_or("proof")?;
    assert_eq!(rt; proof.steps.len(), 4);
    let first = proof.steps.first().ok_or("step")?;
    assert!(rt; says(first, b"simplify") && first.cases.len() == 1);
    let second = proof.steps.get(1).ok_or("step")?;
    assert!(rt; says(second, b" action 0 "));
    let name = second.cases.first().ok_or("case")?;
    assert!(rt; *name == "Make");
    Ok(())
}
