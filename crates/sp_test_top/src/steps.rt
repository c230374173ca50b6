// Steps that are replayed. The answers are worked out by hand.

use crate::calls::assert_answer;
use std::test::Fail;

/// The first theory, up to its end.
pub(crate) const FIRST: &str = "theory R1 begin
rule Make: [ Fr(~k) ] --[ A(~k) ]-> [ ]
lemma once: \"All x #i #j. A(x)@i & A(x)@j ==> #i = #j\"
end";

/// Lines behind the first theory, the status, and the answer.
static BEHIND_FIRST: [(&str, u8, &str); 14] = [
    (
        "\npub 'a'\nin 'a'\n",
        0,
        "trace:\nK('a')\nend of trace\nonce (all-traces): met\n",
    ),
    ("", 0, "trace:\nend of trace\nonce (all-traces): met\n"),
    (
        " jump\n\nfresh ~n1\r\n  rule Make: k = fst(<~n1, 'c'>)  ",
        0,
        "trace:\nA(~n1)\nend of trace\nonce (all-traces): met\n",
    ),
    (
        "\nfresh ~n1\nrule Make: k = ~n1\nrule Make: k = ~n1\n",
        3,
        "step 3 refused (3)\n",
    ),
    (
        "\nfresh ~n1\nrule Make: k = ~n1\nfresh ~n1\n",
        3,
        "step 3 refused (4)\n",
    ),
    ("\nown ~n1\n", 3, "step 1 refused (3)\n"),
    ("\nout 'a'\n", 3, "step 1 refused (3)\n"),
    ("\nrule Take: k = ~n1\n", 3, "step 1 refused (1)\n"),
    ("\nfresh ~n1\nrule Make:\n", 3, "step 2 refused (2)\n"),
    ("\nrule Make: k = ~n1, k = ~n1\n", 3, "step 1 refused (2)\n"),
    ("\npub ~n1\n", 3, "step 1 refused (5)\n"),
    ("\njump\n", 4, "refused: line 1\n"),
    (
        "\npub 'a'\n\nmake fst('a')\n",
        0,
        "trace:\nend of trace\nonce (all-traces): met\n",
    ),
    ("\nfresh ~n1\nfresh ~n1\njump\n", 4, "refused: line 3\n"),
];

fn step_cases() -> &'static [(&'static str, u8, &'static str)] {
    &BEHIND_FIRST
}

/// Two secrets are made, and the first of them is used.
const SECRETS: &str = "theory Secrets begin
rule Make: [ Fr(~k) ] --[ A(~k), B(~k, 'c') ]-> [ !S(~k) ]
rule Use: [ !S(k) ] --[ U(k) ]-> [ ]
lemma used: \"All x #i. A(x)@i ==> (Ex #j. U(x)@j)\"
lemma made_before: \"All x #i. U(x)@i ==> (Ex #j. A(x)@j & #j < #i)\"
lemma made_after: \"All x #i. U(x)@i ==> (Ex #j. A(x)@j & #i < #j)\"
lemma two: exists-trace \"Ex x y #i #j. A(x)@i & A(y)@j & not x = y\"
lemma once: \"All x #i #j. A(x)@i & A(x)@j ==> #i = #j\"
lemma always_c: \"All x y #i. B(x, y)@i ==> y = 'c'\"
lemma never_d: \"All x #i. B(x, 'd')@i ==> F\"
lemma c_first: exists-trace \"Ex x #i. B('c', x)@i\"
lemma public: \"All $x #i. A($x)@i ==> F\"
lemma fresh: \"All ~x #i. A(~x)@i ==> F\"
lemma only_one: exists-trace \"Ex x #i. A(x)@i & (All y #j. A(y)@j ==> y = x)\"
lemma renamed: exists-trace \"Ex x y #i. A(x)@i & x = y & (Ex #j. U(y)@j)\"
lemma unused: exists-trace \"Ex x y #i. A(x)@i & y = x & not (Ex #j. U(y)@j)\"
lemma true: \"T\"
lemma false: exists-trace \"F\"
end";

/// Both are made at their own times, the first before its use, and the second is not used.
const SECRET_STEPS: &str = "
fresh ~n1
rule Make: k = ~n1
fresh ~n2
rule Make: k = ~n2
rule Use: k = ~n1
pub 'a'
in 'a'
";

/// What is true over their trace; fresh names are no public ones.
const SECRETS_TRACE: &str = "trace:
A(~n1), B(~n1, 'c')
A(~n2), B(~n2, 'c')
U(~n1)
K('a')
end of trace
used (all-traces): broken
made_before (all-traces): met
made_after (all-traces): broken
two (exists-trace): met
once (all-traces): met
always_c (all-traces): met
never_d (all-traces): met
c_first (exists-trace): broken
public (all-traces): met
fresh (all-traces): broken
only_one (exists-trace): broken
renamed (exists-trace): met
unused (exists-trace): met
true (all-traces): met
false (exists-trace): broken
";

/// Lemmas of both kinds over the same trace.
const BOTH_KINDS: &str = "theory R begin
rule Make: [ Fr(~k) ] --[ A(~k) ]-> [ ]
lemma once: \"All x #i #j. A(x)@i & A(x)@j ==> #i = #j\"
lemma sent: exists-trace \"Ex x #i. A(x)@i\"
end // the steps
pub 'a'

in 'a'
";

#[test]
fn steps_are_replayed(rt: HostRuntime) -> Result<(), Fail> {
    let alloc = rt.alloc();
    for (lines, status, answer) in step_cases().iter() {
        let text = format!(in alloc; "{FIRST}{lines}")?;
        assert_answer(&rt, alloc, "replay", text.as_str(), *status, answer)?;
    }
    let secrets = format!(in alloc; "{SECRETS}{SECRET_STEPS}")?;
    for (text, status, answer) in [
        (secrets.as_str(), 0, SECRETS_TRACE),
        (
            BOTH_KINDS,
            0,
            "trace:\nK('a')\nend of trace\nonce (all-traces): met\nsent (exists-trace): broken\n",
        ),
        (
            "theory R begin end\npub 'a'\n\nin 'b'\n",
            3,
            "step 2 refused (3)\n",
        ),
    ] {
        assert_answer(&rt, alloc, "replay", text, status, answer)?;
    }
    Ok(())
}
