// Executions over the builtins and over declared functions and equations: what their logs show and learn, worked out by hand.

use crate::logs::told_of;
use std::test::Fail;

/// An execution, and what its log shows and learns.
struct Execution {
    /// what stands in the theory
    items: &'static str,
    /// the lines of the steps
    lines: &'static str,
    /// the entries of the visible trace
    shown: &'static str,
    /// what is learnt, and how
    learnt: &'static str,
}

static EXECUTIONS: [Execution; 24] = [
    // a key is put out beside what it hides
    Execution {
        items: "builtins: symmetric-encryption rule Init: [ Fr(~k), Fr(~m) ] --> [ Out(senc(~m, ~k)), Out(~k) ]",
        lines: "fresh ~n1\nfresh ~n2\nrule Init: k = ~n1, m = ~n2\nout senc(~n2, ~n1)\nout ~n1\nmake sdec(senc(~n2, ~n1), ~n1)\nin ~n2",
        shown: "K(~n2)\n",
        learnt: "senc(~n2, ~n1) from 0.0 by 1\n~n1 from 0.1 by 1\n~n2 from 0.0 by 2\n",
    },
    // a pair is learnt by its parts, and so nothing is left to learn where it is taken apart
    Execution {
        items: "rule P: [ Fr(~a), Fr(~b) ] --> [ Out(<~a, ~b, 'c'>) ]",
        lines: "fresh ~n1\nfresh ~n2\nrule P: a = ~n1, b = ~n2\nout <~n1, ~n2, 'c'>\nmake fst(<~n1, ~n2, 'c'>)\nmake snd(<~n1, ~n2, 'c'>)
make fst(<~n2, 'c'>)\nmake <~n2, ~n1>\nin <~n2, ~n1>",
        shown: "K(<~n2, ~n1>)\n",
        learnt: "~n1 from 0.0 by 2\n~n2 from 0.0 by 3\n'c' public\n<~n2, 'c'> made\n<~n1, ~n2, 'c'> made\n<~n2, ~n1> made\n",
    },
    // a message is taken out twice and sent twice
    Execution {
        items: "rule Twice: [ Fr(~k) ] --> [ Out(~k), Out(~k) ]",
        lines: "fresh ~n1\nrule Twice: k = ~n1\nout ~n1\nin ~n1\nout ~n1\nin ~n1",
        shown: "K(~n1)\nK(~n1)\n",
        learnt: "~n1 from 0.0 by 1\n",
    },
    // a message is made, and then taken out
    Execution {
        items: "builtins: hashing rule Hash: [ Fr(~k) ] --> [ Out(h(<~k, 'a'>)), Out(~k) ]",
        lines: "fresh ~n1\nrule Hash: k = ~n1\nout ~n1\npub 'a'\nmake <~n1, 'a'>\nmake h(<~n1, 'a'>)\nout h(<~n1, 'a'>)\nin h(<~n1, 'a'>)",
        shown: "K(h(<~n1, 'a'>))\n",
        learnt: "~n1 from 0.1 by 1\n'a' public\n<~n1, 'a'> made\nh(<~n1, 'a'>) made\n",
    },
    // and the other way round
    Execution {
        items: "builtins: hashing rule Hash: [ Fr(~k) ] --> [ Out(h(<~k, 'a'>)), Out(~k) ]",
        lines: "fresh ~n1\nrule Hash: k = ~n1\nout h(<~n1, 'a'>)\nout ~n1\npub 'a'\nmake <~n1, 'a'>\nmake h(<~n1, 'a'>)\nin h(<~n1, 'a'>)",
        shown: "K(h(<~n1, 'a'>))\n",
        learnt: "h(<~n1, 'a'>) from 0.0 by 1\n~n1 from 0.1 by 1\n'a' public\n<~n1, 'a'> made\n",
    },
    // one encryption in another one, whose keys are a pair
    Execution {
        items: "builtins: symmetric-encryption rule N: [ Fr(~k), Fr(~l), Fr(~m) ] --> [ Out(senc(senc(~m, ~l), ~k)), Out(<~k, ~l>) ]",
        lines: "fresh ~n1\nfresh ~n2\nfresh ~n3\nrule N: k = ~n1, l = ~n2, m = ~n3\nout senc(senc(~n3, ~n2), ~n1)\nout <~n1, ~n2>
make fst(<~n1, ~n2>)\nmake snd(<~n1, ~n2>)\nmake sdec(senc(senc(~n3, ~n2), ~n1), ~n1)\nmake sdec(senc(~n3, ~n2), ~n2)\nin ~n3",
        shown: "K(~n3)\n",
        learnt: "senc(senc(~n3, ~n2), ~n1) from 0.0 by 1\n~n1 from 0.1 by 2\n~n2 from 0.1 by 2\n<~n1, ~n2> made\nsenc(~n3, ~n2) from 0.0 by 2
~n3 from 0.0 by 3\n",
    },
    // the key comes later, from another step, and what it opens is a pair
    Execution {
        items: "builtins: symmetric-encryption rule Lock: [ Fr(~k), Fr(~m) ] --> [ !Key(~k), Out(senc(<~m, 'x'>, ~k)) ]
rule Open: [ !Key(k) ] --[ Opened(k) ]-> [ Out(k) ]",
        lines: "fresh ~n1\nfresh ~n2\nrule Lock: k = ~n1, m = ~n2\nout senc(<~n2, 'x'>, ~n1)\nrule Open: k = ~n1\nout ~n1
make sdec(senc(<~n2, 'x'>, ~n1), ~n1)\nmake fst(<~n2, 'x'>)\nin ~n2",
        shown: "Opened(~n1)\nK(~n2)\n",
        learnt: "senc(<~n2, 'x'>, ~n1) from 0.1 by 1\n~n1 from 2.0 by 1\n~n2 from 0.1 by 3\n'x' public\n<~n2, 'x'> made\n",
    },
    // a signature is verified: a constant is made, not taken out
    Execution {
        items: "builtins: signing rule Sign: [ Fr(~k), Fr(~m) ] --> [ Out(<sign(~m, ~k), ~m>), Out(pk(~k)) ] rule Check: [ In(true) ] --[ Checked() ]-> [ ]",
        lines: "fresh ~n1\nfresh ~n2\nrule Sign: k = ~n1, m = ~n2\nout <sign(~n2, ~n1), ~n2>\nout pk(~n1)\nmake fst(<sign(~n2, ~n1), ~n2>)
make snd(<sign(~n2, ~n1), ~n2>)\nmake verify(sign(~n2, ~n1), ~n2, pk(~n1))\nin true\nrule Check:",
        shown: "K(true)\nChecked()\n",
        learnt: "sign(~n2, ~n1) from 0.0 by 2\n~n2 from 0.0 by 2\n<sign(~n2, ~n1), ~n2> made\npk(~n1) from 0.1 by 1\ntrue made\n",
    },
    // one that isn't verified stays as it is
    Execution {
        items: "builtins: signing rule Sign: [ Fr(~k), Fr(~m) ] --> [ Out(sign(~m, ~k)) ]",
        lines: "fresh ~n1\nfresh ~n2\nrule Sign: k = ~n1, m = ~n2\nout sign(~n2, ~n1)\npub 'a'\nmake verify(sign(~n2, ~n1), 'a', 'a')
in verify(sign(~n2, ~n1), 'a', 'a')",
        shown: "K(verify(sign(~n2, ~n1), 'a', 'a'))\n",
        learnt: "sign(~n2, ~n1) from 0.0 by 1\n'a' public\nverify(sign(~n2, ~n1), 'a', 'a') made\n",
    },
    // a signature tells its message
    Execution {
        items: "builtins: revealing-signing rule S: [ Fr(~k), Fr(~m) ] --> [ Out(revealSign(~m, ~k)), Out(pk(~k)) ]",
        lines: "fresh ~n1\nfresh ~n2\nrule S: k = ~n1, m = ~n2\nout revealSign(~n2, ~n1)\nmake getMessage(revealSign(~n2, ~n1))\nout pk(~n1)
make revealVerify(revealSign(~n2, ~n1), ~n2, pk(~n1))\nmake <true, ~n2>\nin <true, ~n2>",
        shown: "K(<true, ~n2>)\n",
        learnt: "revealSign(~n2, ~n1) from 0.0 by 1\n~n2 from 0.0 by 2\npk(~n1) from 0.1 by 1\ntrue made\n<true, ~n2> made\n",
    },
    // what was made is decrypted again, by an own key
    Execution {
        items: "builtins: symmetric-encryption",
        lines: "fresh ~n1\nown ~n1\npub 'a'\nmake senc('a', ~n1)\nmake sdec(senc('a', ~n1), ~n1)\nin 'a'",
        shown: "K('a')\n",
        learnt: "~n1 own\n'a' public\nsenc('a', ~n1) made\n",
    },
    // an answer to an own public key
    Execution {
        items: "builtins: asymmetric-encryption rule Hello: [ In(p), Fr(~m) ] --> [ Out(aenc(~m, p)) ]",
        lines: "fresh ~n1\nown ~n1\nmake pk(~n1)\nin pk(~n1)\nfresh ~n2\nrule Hello: p = pk(~n1), m = ~n2\nout aenc(~n2, pk(~n1))
make adec(aenc(~n2, pk(~n1)), ~n1)\nin ~n2",
        shown: "K(pk(~n1))\nK(~n2)\n",
        learnt: "~n1 own\npk(~n1) made\naenc(~n2, pk(~n1)) from 3.0 by 1\n~n2 from 3.0 by 2\n",
    },
    // a message that was made of one that was put out: the way leads on below it
    Execution {
        items: "functions: e/2, f/1, d/2 equations: d(f(e(x, y)), y) = x rule R: [ Fr(~k), Fr(~m) ] --> [ Out(e(~m, ~k)), Out(~k) ]",
        lines: "fresh ~n1\nfresh ~n2\nrule R: k = ~n1, m = ~n2\nout e(~n2, ~n1)\nout ~n1\nmake f(e(~n2, ~n1))\nmake d(f(e(~n2, ~n1)), ~n1)\nin ~n2",
        shown: "K(~n2)\n",
        learnt: "e(~n2, ~n1) from 0.0 by 1\n~n1 from 0.1 by 1\nf(e(~n2, ~n1)) made\n~n2 from 0.0 by 2\n",
    },
    // so it does below a pair, which is always made
    Execution {
        items: "functions: e/2, q/1 equations: q(<e(x, y), y>) = x rule R: [ Fr(~k), Fr(~m) ] --> [ Out(<e(~m, ~k), ~k>) ]",
        lines: "fresh ~n1\nfresh ~n2\nrule R: k = ~n1, m = ~n2\nout <e(~n2, ~n1), ~n1>\nmake q(<e(~n2, ~n1), ~n1>)\nin ~n2",
        shown: "K(~n2)\n",
        learnt: "e(~n2, ~n1) from 0.0 by 2\n~n1 from 0.0 by 2\n<e(~n2, ~n1), ~n1> made\n~n2 from 0.0 by 3\n",
    },
    // the way leads through the second argument
    Execution {
        items: "functions: c/2, d/2 equations: d(k, c(k, m)) = m rule R: [ Fr(~k), Fr(~m) ] --> [ Out(<~k, 'a'>), Out(c(~k, ~m)) ]",
        lines: "fresh ~n1\nfresh ~n2\nrule R: k = ~n1, m = ~n2\nout c(~n1, ~n2)\nout <~n1, 'a'>\nmake fst(<~n1, 'a'>)\nmake d(~n1, c(~n1, ~n2))\nin ~n2",
        shown: "K(~n2)\n",
        learnt: "c(~n1, ~n2) from 0.1 by 1\n~n1 from 0.0 by 2\n'a' public\n<~n1, 'a'> made\n~n2 from 0.1 by 2\n",
    },
    // the message beside the way is a pair that was made
    Execution {
        items: "functions: e/3, d/2 equations: d(e(x, y, z), <z, y>) = x rule R: [ Fr(~a), Fr(~b), Fr(~m) ] --> [ Out(e(~m, ~a, ~b)), Out(~a), Out(~b) ]",
        lines: "fresh ~n1\nfresh ~n2\nfresh ~n3\nrule R: a = ~n1, b = ~n2, m = ~n3\nout ~n2\nout e(~n3, ~n1, ~n2)\nout ~n1\nmake <~n2, ~n1>
make d(e(~n3, ~n1, ~n2), <~n2, ~n1>)\nin ~n3",
        shown: "K(~n3)\n",
        learnt: "~n2 from 0.2 by 1\ne(~n3, ~n1, ~n2) from 0.0 by 1\n~n1 from 0.1 by 1\n<~n2, ~n1> made\n~n3 from 0.0 by 2\n",
    },
    // a persistent fact is taken twice by one step, and by another one
    Execution {
        items: "builtins: hashing rule Make: [ Fr(~k) ] --> [ !S(~k) ] rule Show: [ !S(k), !S(k) ] --[ Shown(k) ]-> [ Out(h(k)) ]",
        lines: "fresh ~n1\nrule Make: k = ~n1\nrule Show: k = ~n1\nrule Show: k = ~n1\nout h(~n1)\nout h(~n1)\nin h(~n1)",
        shown: "Shown(~n1)\nShown(~n1)\nK(h(~n1))\n",
        learnt: "h(~n1) from 1.0 by 1\n",
    },
    // two linear facts that are the same have sources of their own
    Execution {
        items: "rule Give: [ Fr(~k) ] --> [ T(~k), T(~k) ] rule Take: [ T(k), T(k) ] --[ Took(k, k), Done() ]-> [ ]",
        lines: "fresh ~n1\nrule Give: k = ~n1\nrule Take: k = ~n1",
        shown: "Took(~n1, ~n1), Done()\n",
        learnt: "",
    },
    // what a private symbol is over is learnt as a whole
    Execution {
        items: "functions: hide/1 [private] rule H: [ Fr(~k) ] --> [ Out(<hide(~k), ~k>) ]",
        lines: "fresh ~n1\nrule H: k = ~n1\nout <hide(~n1), ~n1>\nmake fst(<hide(~n1), ~n1>)\nin hide(~n1)",
        shown: "K(hide(~n1))\n",
        learnt: "hide(~n1) from 0.0 by 2\n~n1 from 0.0 by 2\n<hide(~n1), ~n1> made\n",
    },
    // a public constant is made, and a private one is taken out
    Execution {
        items: "functions: c/0, s/0 [private] rule Both: [ ] --> [ Out(<c, s, 'p'>) ]",
        lines: "rule Both:\nout <c, s, 'p'>\nmake snd(<c, s, 'p'>)\nmake fst(<s, 'p'>)\nin s",
        shown: "K(s)\n",
        learnt: "c made\ns from 0.0 by 3\n'p' public\n<s, 'p'> made\n<c, s, 'p'> made\n",
    },
    // steps and rules whose terms aren't in normal form
    Execution {
        items: "rule R: [ Fr(~k) ] --[ A(fst(<~k, 'a'>)) ]-> [ Out(snd(<'a', ~k>)) ]",
        lines: "fresh fst(<~n1, 'a'>)\nrule R: k = fst(<~n1, 'b'>)\nout fst(<~n1, 'd'>)\nin snd(<'a', ~n1>)",
        shown: "A(~n1)\nK(~n1)\n",
        learnt: "~n1 from 0.0 by 1\n",
    },
    // what was sent comes out again, and was learnt before
    Execution {
        items: "rule Echo: [ In(x) ] --[ Got(x) ]-> [ Out(x), Out(<x, x>) ]",
        lines: "pub 'a'\nin 'a'\nrule Echo: x = 'a'\nout 'a'\nout <'a', 'a'>\nin <'a', 'a'>",
        shown: "K('a')\nGot('a')\nK(<'a', 'a'>)\n",
        learnt: "'a' public\n<'a', 'a'> made\n",
    },
    // a destructor that doesn't fit is made, and is sent
    Execution {
        items: "builtins: symmetric-encryption rule Init: [ Fr(~k), Fr(~m) ] --> [ Out(senc(~m, ~k)) ]",
        lines: "fresh ~n1\nfresh ~n2\nrule Init: k = ~n1, m = ~n2\nout senc(~n2, ~n1)\npub 'a'\nmake sdec(senc(~n2, ~n1), 'a')
make fst(sdec(senc(~n2, ~n1), 'a'))\nin fst(sdec(senc(~n2, ~n1), 'a'))",
        shown: "K(fst(sdec(senc(~n2, ~n1), 'a')))\n",
        learnt: "senc(~n2, ~n1) from 0.0 by 1\n'a' public\nsdec(senc(~n2, ~n1), 'a') made\nfst(sdec(senc(~n2, ~n1), 'a')) made\n",
    },
    // no step
    Execution {
        items: "rule R: [ ] --[ A() ]-> [ ]",
        lines: "",
        shown: "",
        learnt: "",
    },
];

fn execution_cases() -> &'static [Execution] {
    &EXECUTIONS
}

#[test]
fn executions_have_their_logs(rt: HostRuntime) -> Result<(), Fail> {
    let alloc = rt.alloc();
    for execution in execution_cases().iter() {
        let Execution {
            items,
            lines,
            shown,
            learnt,
        } = execution;
        let theory = format!(in alloc; "theory T begin {items} end")?;
        let told = told_of(alloc, &theory, lines)?.ok_or("log")?;
        let trace = format!(in alloc; "trace:\n{shown}end of trace\n")?;
        assert_eq!(rt; told.trace.as_str(), trace.as_str(), "{items}");
        assert_eq!(rt; told.learnt.as_str(), *learnt, "{items}");
    }
    Ok(())
}

/// Theories, and lines of which the last is no step.
static NONE: [(&str, &str); 9] = [
    // the key isn't known
    (
        "builtins: symmetric-encryption rule Init: [ Fr(~k), Fr(~m) ] --> [ Out(senc(~m, ~k)), Out(~k) ]",
        "fresh ~n1\nfresh ~n2\nrule Init: k = ~n1, m = ~n2\nout senc(~n2, ~n1)\nmake sdec(senc(~n2, ~n1), ~n1)",
    ),
    // the inner part of a pair isn't known before the pair is taken apart
    (
        "rule P: [ Fr(~a) ] --> [ Out(<~a, 'b'>) ]",
        "fresh ~n1\nrule P: a = ~n1\nout <~n1, 'b'>\nin ~n1",
    ),
    // a message is taken out once more than it was put out
    (
        "rule Twice: [ Fr(~k) ] --> [ Out(~k), Out(~k) ]",
        "fresh ~n1\nrule Twice: k = ~n1\nout ~n1\nout ~n1\nout ~n1",
    ),
    // a linear fact is taken twice
    (
        "rule Give: [ Fr(~k) ] --> [ T(~k) ] rule Take: [ T(k), T(k) ] --> [ ]",
        "fresh ~n1\nrule Give: k = ~n1\nrule Take: k = ~n1",
    ),
    // a private symbol is applied, a symbol to another number of terms, and one that there isn't
    (
        "functions: hide/1 [private] rule H: [ Fr(~k) ] --> [ Out(<hide(~k), ~k>) ]",
        "fresh ~n1\nrule H: k = ~n1\nout <hide(~n1), ~n1>\nmake snd(<hide(~n1), ~n1>)\nmake hide(~n1)",
    ),
    ("builtins: hashing", "pub 'a'\nmake h('a', 'a')"),
    ("", "pub 'a'\nmake h('a')"),
    // no such rule, and values that aren't those of its variables
    ("rule R: [ Fr(~k) ] --> [ ]", "fresh ~n1\nrule S: k = ~n1"),
    ("rule R: [ Fr(~k) ] --> [ ]", "fresh ~n1\nrule R: l = ~n1"),
];

fn without_log() -> &'static [(&'static str, &'static str)] {
    &NONE
}

#[test]
fn what_is_no_execution_has_no_log(rt: HostRuntime) -> Result<(), Fail> {
    let alloc = rt.alloc();
    for (items, lines) in without_log().iter() {
        let theory = format!(in alloc; "theory T begin {items} end")?;
        assert!(rt; told_of(alloc, &theory, lines)?.is_none(), "{items}");
    }
    Ok(())
}
