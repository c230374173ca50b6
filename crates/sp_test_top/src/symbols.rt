// Theories with builtins, functions and equations: findings on them, their steps, and their lemmas. The answers are worked out by hand.

use crate::calls::{assert_answer, words_on_text};
use sp_io::{MemLibrary, MemSink};
use sp_top::run;
use std::alloc::Global;
use std::test::Fail;

/// What stands in a theory, and the report on it.
static REPORTED: [(&str, &str); 22] = [
    (
        "builtins: diffie-hellman",
        "fatal: builtin left out: diffie-hellman\n",
    ),
    (
        "functions: d/1, f/2 equations: d(f(x,y)) = x, d(f(x,y)) = y",
        "fatal: equations 1 and 2 clash\n",
    ),
    (
        "rule P: [ M(fst(x)) ] --> [ N(x) ]",
        "fatal: rule P: destructor in a premise\nwarning: rule P: premise M/1 has no source\n",
    ),
    (
        "functions: f/1, f/2, g/1 [private], g/1, f/1",
        "fatal: symbol f declared twice\nfatal: symbol g declared twice\n",
    ),
    // the builtin's symbols stand before the declared ones
    (
        "functions: h/2 builtins: hashing",
        "fatal: symbol h declared twice\n",
    ),
    (
        "functions: pair/2 [private], h/1 [constructor], h/1 [public, destructor]",
        "fatal: symbol pair declared twice\n",
    ),
    (
        "functions: f/1 rule R: [ M(g(x, f(y, x))) ] --[ A(u{x, y}x) ]-> [ N(f(c())) ] lemma l: \"All x #i. A(pair(x))@i ==> v() = x\"",
        "fatal: unknown symbol g/2\nfatal: unknown symbol f/2\nfatal: unknown symbol u/2\nfatal: unknown symbol c/0\nfatal: unknown symbol pair/1\nfatal: unknown symbol v/0\nwarning: rule R: premise M/1 has no source\n",
    ),
    (
        "functions: f/16, g/17, k/99999999999999999999",
        "fatal: arity above 16: g\nfatal: arity above 16: k\n",
    ),
    ("equations: fst(x) = x", "fatal: equations 0 and 1 clash\n"),
    (
        "functions: d/1 equations: d(x) = y",
        "fatal: equation 1: shape\n",
    ),
    (
        "functions: d/1 equations: d(x) = d(x)",
        "fatal: equation 1: shape\n",
    ),
    (
        "functions: d/1 equations: d($x) = $x",
        "fatal: equation 1: shape\n",
    ),
    (
        "functions: d/1 equations: d('a') = 'a'",
        "fatal: equation 1: shape\n",
    ),
    (
        "equations: <x, y> = x, x = x",
        "fatal: equation 1: shape\nfatal: equation 2: shape\n",
    ),
    (
        "functions: d/1, k/0 [private] equations: d(x) = k",
        "fatal: equation 1: private constant\n",
    ),
    // an equation that equals an earlier one is passed over, and keeps its number
    (
        "functions: d/1, e/1 equations: d(e(x)) = x, d(e(y:msg)) = y, fst(<v, w>) = v, d(e(x)) = e(x)",
        "fatal: equations 1 and 4 clash\n",
    ),
    // pk is a destructor then, below the root of the builtin's left side
    (
        "builtins: asymmetric-encryption equations: pk(x) = x",
        "fatal: equation 0: shape\n",
    ),
    (
        "lemma l: \"All x #i. A(x)@i ==> fst(x) = x\"",
        "fatal: formula l: destructor\nwarning: formula l: action A/1 in no rule\n",
    ),
    // a constant isn't a variable, unless a quantifier binds it
    (
        "functions: c/0 rule R: [ Fr(c) ] --[ A(c, d) ]-> [ ]",
        "fatal: rule R: Fr argument\nfatal: rule R: variable d not bound\n",
    ),
    (
        "functions: f/1 rule R: [ M(f(x)) ] --[ A(f(~x), f(y)) ]-> [ ]",
        "fatal: rule R: variable x has two sorts\nfatal: rule R: variable y not bound\nwarning: rule R: premise M/1 has no source\n",
    ),
    (
        "functions: f/1 lemma l: \"All x #i. A(f(x), f(y))@i ==> F\" lemma m: \"All x #i. f(x) = x & A('a')@i ==> F\"",
        "fatal: formula l: variable y not bound\nfatal: formula m: variable x not guarded\nwarning: formula l: action A/2 in no rule\nwarning: formula m: action A/1 in no rule\n",
    ),
    (
        "functions: f/1 lemma l: \"All x #i. A(f(x), f(i), f(~x))@i ==> F\"",
        "fatal: formula l: variable x has another sort than its binder\nfatal: formula l: time and message mixed at i\nwarning: formula l: action A/3 in no rule\n",
    ),
];

fn reported_cases() -> &'static [(&'static str, &'static str)] {
    &REPORTED
}

#[test]
fn findings_are_reported(rt: HostRuntime) -> Result<(), Fail> {
    let alloc = rt.alloc();
    for (items, report) in reported_cases().iter() {
        let text = format!(in alloc; "theory T begin {items} end")?;
        for command in ["prove", "check", "replay"] {
            assert_answer(&rt, alloc, command, text.as_str(), 4, report)?;
        }
    }
    Ok(())
}

/// Keys, of which one is given out, and messages that are shown when they are received.
const KEYS: &str = "theory K begin
builtins: symmetric-encryption, signing
functions: g/1, secret/1 [private], c/0
rule Key: [ Fr(~k) ] --[ Made(~k, c) ]-> [ !Key(~k), Out(g(~k)) ]
rule Show: [ !Key(k) ] --[ Shown(sdec(senc('m', k), k), fst(<k, 'a'>)) ]-> [ M(verify(sign('m', k), 'm', pk(k))) ]
rule Take: [ M(true) ] --[ Took() ]-> [ ]
lemma shown: \"All x y #i. Shown(x, y)@i ==> x = 'm'\"
lemma paired: exists-trace \"Ex x #i. Made(x, c)@i & (Ex c #j. Shown(c, x)@j)\"
end
";

/// Lines behind it, the status, and the answer.
static STEPS: [(&str, u8, &str); 12] = [
    (
        "fresh ~n1\nrule Key: k = sdec(senc(~n1, 'x'), 'x')\nrule Show: k = ~n1\nrule Take:\n",
        0,
        "trace:\nMade(~n1, c)\nShown('m', ~n1)\nTook()\nend of trace\nshown (all-traces): met\npaired (exists-trace): met\n",
    ),
    (
        "pub 'a'\npub 'b'\nmake senc('a', 'b')\nmake sdec(senc('a', 'b'), 'b')\nin 'a'\n",
        0,
        "trace:\nK('a')\nend of trace\nshown (all-traces): met\npaired (exists-trace): broken\n",
    ),
    (
        "pub 'a'\nmake <'a', 'a'>\nmake fst(<'a', 'a'>)\nmake c\nmake true\nin c\n",
        0,
        "trace:\nK(c)\nend of trace\nshown (all-traces): met\npaired (exists-trace): broken\n",
    ),
    // the whole that is put together isn't known
    (
        "pub 'a'\npub 'b'\nmake sdec(senc('a', 'b'), 'b')\n",
        3,
        "step 3 refused (3)\n",
    ),
    ("pub 'a'\nmake secret('a')\n", 3, "step 2 refused (1)\n"),
    ("pub 'a'\nmake nosuch('a')\n", 3, "step 2 refused (1)\n"),
    ("pub 'a'\nmake senc('a')\n", 3, "step 2 refused (1)\n"),
    (
        "pub 'a'\nmake senc(nosuch('a'), 'a')\n",
        4,
        "refused: line 2\n",
    ),
    ("make c()\n", 4, "refused: line 1\n"),
    ("pub 'a'\nmake pair('a', 'a')\n", 4, "refused: line 2\n"),
    (
        "pub sdec(senc('a', 'b'), 'b')\nin 'a'\n",
        0,
        "trace:\nK('a')\nend of trace\nshown (all-traces): met\npaired (exists-trace): broken\n",
    ),
    ("pub sdec(senc(~n1, 'b'), 'b')\n", 3, "step 1 refused (5)\n"),
];

fn step_cases() -> &'static [(&'static str, u8, &'static str)] {
    &STEPS
}

#[test]
fn steps_with_symbols_are_replayed(rt: HostRuntime) -> Result<(), Fail> {
    let alloc = rt.alloc();
    for (lines, status, answer) in step_cases().iter() {
        let text = format!(in alloc; "{KEYS}{lines}")?;
        assert_answer(&rt, alloc, "replay", text.as_str(), *status, answer)?;
    }
    Ok(())
}

/// Rules whose terms have symbols, lemmas, and the beginning of the line of each.
static PROVED: [(&str, &str); 8] = [
    // Fresh names of two steps differ, and so do their hashes.
    (
        "lemma once: \"All x #i #j. A(x, x)@i & A(x, x)@j ==> #i = #j\"",
        "once (all-traces): verified",
    ),
    (
        "lemma hashed: \"All x #i. A(h(x), h(x))@i ==> F\"",
        "hashed (all-traces): falsified - found trace",
    ),
    // no rule shows two hashes that differ
    (
        "lemma apart: exists-trace \"Ex x y #i. A(h(x), h(y))@i & not x = y\"",
        "apart (exists-trace): falsified - no trace found",
    ),
    // no hash is a pair
    (
        "lemma paired: \"All x y #i. A(<x, y>, x)@i ==> F\"",
        "paired (all-traces): verified",
    ),
    (
        "lemma taken: exists-trace \"Ex x y #i. B(<x, y, 'c'>, k)@i\"",
        "taken (exists-trace): verified",
    ),
    // what one takes was made before
    (
        "lemma before: \"All x y #i. B(<x, y>, k)@i ==> Ex #j. A(h(x), h(x))@j & #j < #i\"",
        "before (all-traces): verified",
    ),
    // the equality gives y a hash
    (
        "lemma given: \"All x y #i. A(h(x), h(x))@i & y = h(<x, k>) ==> not (Ex #j. B(y, k)@j)\"",
        "given (all-traces): verified",
    ),
    // a name that is bound is no symbol
    (
        "lemma bound: \"All k #i. B(k, k)@i ==> F\"",
        "bound (all-traces): verified",
    ),
];

fn proved_cases() -> &'static [(&'static str, &'static str)] {
    &PROVED
}

const RULES: &str = "builtins: hashing functions: k/0
rule Make: [ Fr(~x) ] --[ A(h(~x), h(~x)) ]-> [ T(h(~x), <~x, 'c'>) ]
rule Take: [ T(h(x), <x, y>) ] --[ B(<x, h(x), y>, k) ]-> [ ]
";

#[test]
fn lemmas_over_symbols_are_tried(rt: HostRuntime) -> Result<(), Fail> {
    let alloc = rt.alloc();
    for (lemma, line) in proved_cases().iter() {
        let text = format!(in alloc; "theory T begin {RULES}{lemma} end")?;
        let words = words_on_text(alloc, "prove")?;
        let mut library = MemLibrary::new(alloc);
        library.put("text", text.as_bytes())?;
        let mut sink = MemSink::new(alloc, 1_000, 100_000)?;
        run(alloc, &words, &mut library, &mut sink);
        let written = str::from_utf8(sink.written())?;
        assert!(rt; written.contains(line), "{lemma} {written}");
    }
    Ok(())
}
