// What is wrong with rules, restrictions and lemmas is found and told.

use sp_declared::equations::equations;
use sp_declared::symbols::symbols;
use sp_read_theory::read_theory;
use sp_resolved::resolved;
use sp_wf::{fatal_lines, write_lines};
use sp_wf_rules::bound_in;
use std::alloc::Global;
use std::test::Fail;

/// The lines of the fatal findings on the theory of a text.
fn report_on(alloc: Global, text: &[u8]) -> Result<Vec<u8>, Fail> {
    let read = read_theory(alloc, text)?.ok_or("read")?;
    let symbols = symbols(alloc, &read.items)?;
    let bound = bound_in(alloc, &read.items)?;
    let theory = resolved(alloc, &symbols, read)?;
    let equations = equations(alloc, &theory.items)?;
    let lines = fatal_lines(alloc, &symbols, &equations, &bound, &theory)?;
    let mut report = Vec::new(alloc);
    write_lines(&mut report, &lines)?;
    Ok(report)
}

/// Theories of one item, and their reports.
static ITEMS: [(&[u8], &str); 17] = [
    (
        b"theory T begin rule R: [ A(x, y, ~y, ~x) ] --> [ ] end",
        "fatal: rule R: variable x has two sorts\nfatal: rule R: variable y has two sorts\n",
    ),
    (
        b"theory T begin rule R: [ Fr(k) ] --[ A($k) ]-> [ ] end",
        "fatal: rule R: variable k has two sorts\n",
    ),
    (
        b"theory T begin rule R: [ A(x) ] --[ B(#x) ]-> [ ] end",
        "fatal: rule R: variable x has two sorts\n",
    ),
    (
        b"theory T begin rule R: [ !Fr(k) ] --> [ Fr($l), Fr() ] end",
        "fatal: rule R: reserved fact Fr\n",
    ),
    (
        b"theory T begin rule R: [ Out(x), K(y), KD('c'), In(x) ] --[ K(x), KD(), In(x), Fr(x, y) ]-> [ In(x), K(x), KD(x), Out(x) ] end",
        "fatal: rule R: reserved fact Out\nfatal: rule R: reserved fact K\nfatal: rule R: reserved fact KD\nfatal: rule R: reserved fact In\n",
    ),
    (
        b"theory T begin rule R: [ !In(x) ] --[ K() ]-> [ Out(x, x) ] end",
        "fatal: rule R: reserved fact In\nfatal: rule R: reserved fact K\nfatal: rule R: reserved fact Out\n",
    ),
    (
        b"theory T begin rule R: [ Fr(), In() ] --> [ !Out('c') ] end",
        "fatal: rule R: reserved fact Fr\nfatal: rule R: reserved fact In\nfatal: rule R: reserved fact Out\n",
    ),
    (
        b"theory T begin rule R: [ In(x), Fr(~k) ] --[ In(x, x), Out(~k), Fr() ]-> [ Out(<x, ~k>) ] end",
        "",
    ),
    (
        b"theory T begin lemma l: \"All x #i. K(x)@i ==> (Ex #j. Out(x, x)@j) | (Ex #j. KD()@j)\" end",
        "",
    ),
    (
        b"theory T begin rule R: [ Fr('c') ] --[ Fr('c', 'd') ]-> [ ] end",
        "fatal: rule R: Fr argument\n",
    ),
    (
        b"theory T begin rule R: [ ] --[ A($x, y) ]-> [ B(y, ~z) ] end",
        "fatal: rule R: variable y not bound\nfatal: rule R: variable z not bound\n",
    ),
    (
        b"theory T begin lemma l: \"All x #i. A(x, y)@i ==> B(y)@j\" end",
        "fatal: formula l: variable y not bound\nfatal: formula l: variable j not bound\n",
    ),
    (
        b"theory T begin lemma l: \"All x #i. F ==> (Ex y. A(x)@i)\" end",
        "fatal: formula l: variable x not guarded\n",
    ),
    // no unguarded variable is looked for where a destructor stands
    (
        b"theory T begin lemma l: \"All x. fst(x) = 'a' ==> F\" end",
        "fatal: formula l: destructor\n",
    ),
    (
        b"theory T begin lemma l: \"All ~x #i. A($x)@i ==> A(x)@i\" end",
        "fatal: formula l: variable x has another sort than its binder\n",
    ),
    (
        b"theory T begin lemma l: \"All x #i. A(x)@i ==> x < i | i = z\" end",
        "fatal: formula l: variable z not bound\nfatal: formula l: time and message mixed at x\nfatal: formula l: time and message mixed at i\n",
    ),
    (
        b"theory T begin lemma l: \"a = b <=> b = c\" end",
        "fatal: formula l: variable a not bound\nfatal: formula l: variable b not bound\nfatal: formula l: variable c not bound\n",
    ),
];

fn item_cases() -> &'static [(&'static [u8], &'static str)] {
    &ITEMS
}

#[test]
fn items_are_reported_on(rt: HostRuntime) -> Result<(), Fail> {
    for (text, lines) in item_cases().iter() {
        let found = report_on(rt.alloc(), text)?;
        assert!(rt; found.as_slice() == lines.as_bytes(), "{lines}");
    }
    Ok(())
}

/// Theories, and their reports.
static THEORIES: [(&[u8], &str); 4] = [
    // nothing is wrong: a rule and a lemma may have one name
    (
        b"theory T begin
lemma N: \"All x #i. A(x)@i ==> Ex #j. B(x, 'c')@j & j < i\"
rule N: [ Fr(k), A(~k, $a) ] --[ B(k:msg, $b) ]-> [ C(k) ]
rule M: [ ] --> [ ] end",
        "",
    ),
    // the lines are in order, and each stands once
    (
        b"theory T begin
rule R: [ ] --[ A(x) ]-> [ ]
lemma l: \"Ex x. T\"
rule R: [ ] --[ A(~y, y), A(x) ]-> [ ]
lemma l: \"A(x)@x\" end",
        "fatal: name R used twice\nfatal: name l used twice\nfatal: rule R: variable y has two sorts\nfatal: rule R: variable x not bound\nfatal: rule R: variable y not bound\nfatal: formula l: variable x not bound\nfatal: formula l: variable x not guarded\n",
    ),
    // arities are told in the order of the text
    (
        b"theory T begin
lemma l: \"Ex x #i. A(x,x,x,x,x,x,x,x,x,x,x,x,x,x,x,x,x)@i & C(x,x,x,x,x,x,x,x,x,x,x,x,x,x,x,x,x)@i\"
rule R: [ B($a,$a,$a,$a,$a,$a,$a,$a,$a,$a,$a,$a,$a,$a,$a,$a,$a) ]
  --[ D($a,$a,$a,$a,$a,$a,$a,$a,$a,$a,$a,$a,$a,$a,$a,$a) ]->
  [ C($a,$a,$a,$a,$a,$a,$a,$a,$a,$a,$a,$a,$a,$a,$a,$a,$a) ]
lemma m: \"Ex x #i. E(x,x,x,x,x,x,x,x,x,x,x,x,x,x,x,x,x)@i\" end",
        "fatal: arity above 16: A\nfatal: arity above 16: C\nfatal: arity above 16: B\nfatal: arity above 16: E\n",
    ),
    // names are told in the order of the text, where items of the other kind have them too, and once where they are used again
    (
        b"theory T begin
rule R: [ ] --> [ ] lemma l: \"T\" rule l: [ ] --> [ ] lemma R: \"T\" lemma l: \"T\"
rule R: [ ] --> [ ] lemma R: \"T\" rule R: [ ] --> [ ] end",
        "fatal: name l used twice\nfatal: name R used twice\n",
    ),
];

fn theory_cases() -> &'static [(&'static [u8], &'static str)] {
    &THEORIES
}

#[test]
fn theories_are_reported_on(rt: HostRuntime) -> Result<(), Fail> {
    for (text, lines) in theory_cases().iter() {
        let found = report_on(rt.alloc(), text)?;
        assert!(rt; found.as_slice() == lines.as_bytes(), "{lines}");
    }
    Ok(())
}

/// Rules with bindings, and their reports.
static BINDINGS: [(&[u8], &str); 6] = [
    // a bound name that stands with another mark than its binding's, and then those in its value
    (
        b"theory T begin rule R: let x = 'a' y = <~x, x> z = <~y, $x> in [ F($y, ~z) ] --> [ G(~x) ] end",
        "fatal: rule R: variable y has two sorts\nfatal: rule R: variable x has two sorts\nfatal: rule R: variable z has two sorts\n",
    ),
    (
        b"theory T begin rule R: let x = 'a' y = <~x, x> z = <~y, $x> in [ F(~z) ] --> [ G(~x) ] end",
        "fatal: rule R: variable z has two sorts\nfatal: rule R: variable y has two sorts\nfatal: rule R: variable x has two sorts\n",
    ),
    // of a name that is bound twice the first binding counts, and a binding that isn't used leaves no trace
    (
        b"theory T begin rule R: let x = 'a' x = <~x, 'b'> y = x x = 'c' in [ F(y) ] --> [ ] end",
        "fatal: rule R: let name x bound twice\n",
    ),
    // variables with two sorts come first; a bare name is one of sort msg
    (
        b"theory T begin
rule R: let x = 'a' y = $x in [ F(~k, ~y) ] --[ A(k) ]-> [ ]
rule S: let #t = 'a' m:msg = 'b' in [ F(#t, t:node, m) ] --> [ F(t, t:msg) ] end",
        "fatal: rule R: variable k has two sorts\nfatal: rule R: variable y has two sorts\nfatal: rule R: variable x has two sorts\nfatal: rule S: variable t has two sorts\n",
    ),
    // what else is wrong is looked for where values stand for the names
    (
        b"theory T begin rule R: let f = ~k x = fst(~q) in [ Fr(f) ] --[ K(f), KU(k) ]-> [ Out(f), G(y) ] end",
        "fatal: rule R: reserved fact K\nfatal: rule R: reserved fact KU\nfatal: rule R: variable y not bound\n",
    ),
    // a bound name is none of a symbol
    (
        b"theory T begin functions: c/0 rule R: let c = 'a' in [ F(c, c(), fst(c)) ] --> [ ] end",
        "fatal: rule R: destructor in a premise\n",
    ),
];

fn binding_cases() -> &'static [(&'static [u8], &'static str)] {
    &BINDINGS
}

#[test]
fn bindings_are_reported_on(rt: HostRuntime) -> Result<(), Fail> {
    for (text, lines) in binding_cases().iter() {
        let found = report_on(rt.alloc(), text)?;
        assert!(rt; found.as_slice() == lines.as_bytes(), "{lines}");
    }
    Ok(())
}

/// Theories with restrictions, with attributes of lemmas, and with what nothing is said of; and their reports.
static STATEMENTS: [(&[u8], &str); 5] = [
    // a restriction doesn't name the action of learning, a lemma may
    (
        b"theory T begin
restriction n: \"All x #i. KU(x)@i ==> F\" lemma l: \"All x #i. KU(x)@i ==> F\"
axiom m: \"All x y #i. KU(x, y)@i ==> F\" end",
        "fatal: restriction n names KU\nfatal: restriction m names KU\n",
    ),
    // restrictions and lemmas share their names
    (
        b"theory T begin
restriction n: \"T\" lemma m: \"T\" lemma n: \"T\" axiom m: \"T\" restriction n: \"T\" rule n: [ ] --> [ ] end",
        "fatal: name n used twice\nfatal: name m used twice\n",
    ),
    // what is wrong with formulas is told of both in the order of the text
    (
        b"theory T begin
lemma l: \"All x #i. A(x)@j ==> g(x) = x\"
restriction r: \"All x #i. F ==> A(x)@i\"
lemma m: \"All ~x #i. A(x, $x)@i ==> x = i\"
axiom s: \"All x #i. A(fst(x), z, x,x,x,x,x,x,x,x,x,x,x,x,x,x,x)@i ==> F\" end",
        "fatal: unknown symbol g/1\nfatal: arity above 16: A\nfatal: formula l: variable j not bound\nfatal: formula s: variable z not bound\nfatal: formula r: variable x not guarded\nfatal: formula s: destructor\nfatal: formula m: variable x has another sort than its binder\nfatal: formula m: time and message mixed at i\n",
    ),
    // attributes that aren't known
    (
        b"theory T begin
lemma l [reuse, foo, sources, typing, use_induction, hide_lemma=foo, heuristic=s, bar, foo]: \"T\"
lemma m [foo, hide_lemma]: \"T\" end",
        "fatal: lemma l: attribute left out: foo\nfatal: lemma l: attribute left out: bar\nfatal: lemma m: attribute left out: foo\nfatal: lemma m: attribute left out: hide_lemma\n",
    ),
    (
        b"theory T begin heuristic: s C
rule (modulo E) R [color=red, [x]]: let a = 'a' in [ F(a)[+, -], Fr(~k)[no_precomp] ] --[ A(~k) ]-> [ ]
text {* x *} restriction r: \"T\" end",
        "",
    ),
];

fn statement_cases() -> &'static [(&'static [u8], &'static str)] {
    &STATEMENTS
}

#[test]
fn statements_are_reported_on(rt: HostRuntime) -> Result<(), Fail> {
    for (text, lines) in statement_cases().iter() {
        let found = report_on(rt.alloc(), text)?;
        assert!(rt; found.as_slice() == lines.as_bytes(), "{lines}");
    }
    Ok(())
}
