// The two orders in which kinds of moves are asked, over messages that one role signs and another accepts: one kind after the other, or those on premises and
// messages as one, from the oldest event on. The numbers of steps are those of another program.

use crate::calls::summary_of;
use std::test::Fail;

/// A key, and who signs with it and who accepts what is signed.
const SIGNED: &str = "builtins: signing
rule Key: [ Fr(~k) ] --> [ !Private(~k), !Public(pk(~k)), Out(pk(~k)) ]
rule Sign: [ !Private(k), Fr(~m) ] --[ Signed(~m) ]-> [ Out(<~m, sign(~m, k)>) ]
rule Accept: [ !Public(pk(k)), In(<m, sign(m, k)>) ] --[ Accepted(m) ]-> [ ]
";

/// The lines of the lemma, which the adversary breaks by sending a message twice: with a proof that is consecutive, and with another.
const CONSECUTIVE: &str = "injective (all-traces): falsified - found trace (54 steps)\n";

const ONE_BY_ONE: &str = "injective (all-traces): falsified - found trace (30 steps)\n";

/// What a theory says before its rules, the attributes of its lemma, what stands behind the lemma, and its line. Of several words the first counts, of several
/// items or attributes the last, and what a lemma says counts before what its theory says.
static RANKED: [(&str, &str, &str, &str); 15] = [
    ("", "", "", ONE_BY_ONE),
    ("heuristic: c\n", "", "", CONSECUTIVE),
    ("heuristic: s\n", "", "", ONE_BY_ONE),
    ("heuristic: C\n", "", "", ONE_BY_ONE),
    ("heuristic: co\n", "", "", CONSECUTIVE),
    ("heuristic: c s\n", "", "", CONSECUTIVE),
    ("heuristic: s c\n", "", "", ONE_BY_ONE),
    ("heuristic: c\nheuristic: s\n", "", "", ONE_BY_ONE),
    ("heuristic: s\nheuristic: c\n", "", "", CONSECUTIVE),
    ("", " [heuristic=c]", "", CONSECUTIVE),
    ("heuristic: c\n", " [heuristic=s]", "", ONE_BY_ONE),
    ("heuristic: s\n", " [heuristic=c]", "", CONSECUTIVE),
    ("", " [heuristic=c, heuristic=s]", "", ONE_BY_ONE),
    ("", " [heuristic=s, heuristic=c]", "", CONSECUTIVE),
    ("", "", "\nheuristic: c", CONSECUTIVE),
];

fn ranked_cases() -> &'static [(&'static str, &'static str, &'static str, &'static str)] {
    &RANKED
}

#[test]
fn moves_are_ranked_as_is_asked(rt: HostRuntime) -> Result<(), Fail> {
    let alloc = rt.alloc();
    for ranked in ranked_cases().iter() {
        let (before, attributes, behind, line) = *ranked;
        let items = format!(in alloc; "{before}{SIGNED}")?;
        let lemma = format!(in alloc;
            "injective{attributes}: \"All m #i #j. Accepted(m)@i & Accepted(m)@j ==> #i = #j\"{behind}"
        )?;
        let summary = summary_of(&rt, alloc, items.as_str(), lemma.as_str())?;
        assert!(rt;
            summary.as_str().starts_with(line),
            "{before}{attributes}{behind}: {summary}"
        );
    }
    Ok(())
}
