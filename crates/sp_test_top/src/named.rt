// A budget that is given, and a lemma that is named: it alone is run, and none is taken for it. What is written is worked out by hand.

use crate::calls::words_of;
use sp_io::{MemLibrary, MemSink};
use sp_top::run;
use std::alloc::Global;
use std::process::Abort;
use std::test::Fail;

/// One is verified, one is found, and one has a proof that stands below it.
const THREE: &str = "theory T begin
rule Make: [ Fr(~k) ] --[ A(~k) ]-> [ ]
lemma once: \"All x #i #j. A(x)@i & A(x)@j ==> #i = #j\"
by sorry
lemma some: exists-trace \"Ex x #i. A(x)@i\"
lemma none: \"All x #i. A(x)@i ==> F\"
simplify
by sorry
end
";

/// Only the first proof is put in the place of what stood there.
const FIRST: &str = "theory T begin
rule Make: [ Fr(~k) ] --[ A(~k) ]-> [ ]
lemma once: \"All x #i #j. A(x)@i & A(x)@j ==> #i = #j\"
simplify
solve( action 0 )
  case Make
  solve( action 0 )
    case Make
    by contradiction
  qed
qed
lemma some: exists-trace \"Ex x #i. A(x)@i\"
lemma none: \"All x #i. A(x)@i ==> F\"
simplify
by sorry
end
/*
once (all-traces): verified (4 steps)
*/
";

/// The second is put where none stood.
const SECOND: &str = "theory T begin
rule Make: [ Fr(~k) ] --[ A(~k) ]-> [ ]
lemma once: \"All x #i #j. A(x)@i & A(x)@j ==> #i = #j\"
by sorry
lemma some: exists-trace \"Ex x #i. A(x)@i\"
simplify
solve( action 0 )
  case Make
  SOLVED
qed

lemma none: \"All x #i. A(x)@i ==> F\"
simplify
by sorry
end
/*
some (exists-trace): verified (3 steps)
execution:
fresh ~n1
rule Make: k = ~n1
trace:
A(~n1)
end of trace
*/
";

/// A token goes round; who holds it got it from Start, which is shown by induction in twelve moves. With that taken, the second lemma is shown in four.
const LOOP: &str = "theory L begin
rule Start: [ Fr(~x) ] --[ S(~x) ]-> [ T(~x) ]
rule Loop: [ T(x) ] --[ L(x) ]-> [ T(x) ]
lemma origin [use_induction, reuse]: \"All x #i. L(x)@i ==> Ex #j. S(x)@j & #j < #i\"
lemma second: \"All x #i. L(x)@i ==> Ex #j. S(x)@j\"
end
";

/// The first lemma is read over executions, the second over learning logs, and the first is taken for it: each was shown of all logs.
const HEARD: &str = "theory L begin
rule Start: [ Fr(~x) ] --[ S(~x) ]-> [ T(~x) ]
rule Loop: [ T(x) ] --[ L(x) ]-> [ T(x) ]
lemma origin [use_induction, reuse]: \"All x #i. L(x)@i ==> Ex #j. S(x)@j & #j < #i\"
lemma heard: \"All x #i #k. L(x)@i & KU(x)@k ==> Ex #j. S(x)@j\"
end
";

/// And the other way round.
const TAKEN: &str = "theory L begin
rule Start: [ Fr(~x) ] --[ S(~x) ]-> [ T(~x) ]
rule Loop: [ T(x) ] --[ L(x) ]-> [ T(x) ]
lemma origin [use_induction, reuse]: \"All x #i. L(x)@i ==> (Ex #j. S(x)@j & #j < #i) | (Ex #j. KU(x)@j & S(x)@j)\"
lemma second: \"All x #i. L(x)@i ==> Ex #j. S(x)@j\"
end
";

/// A fatal finding.
const WRONG: &str = "theory W begin
rule Make: [ ] --[ A(k) ]-> [ ]
end
";

/// The library that holds them.
fn library(alloc: Global) -> Result<MemLibrary, Fail> {
    let mut library = MemLibrary::new(alloc);
    library.put("three", THREE.as_bytes())?;
    library.put("loop", LOOP.as_bytes())?;
    library.put("heard", HEARD.as_bytes())?;
    library.put("taken", TAKEN.as_bytes())?;
    library.put("wrong", WRONG.as_bytes())?;
    library.put("open", b"theory X begin /* ab")?;
    Ok(library)
}

/// The line of a command, the status, and how the answer ends.
static ENDS: [(&str, u8, &str); 17] = [
    ("spthy prove three --lemma once", 0, FIRST),
    ("spthy prove --lemma some three", 0, SECOND),
    (
        "spthy prove three --lemma=none --budget=1",
        2,
        "\n/*\nnone (all-traces): analysis incomplete (1 steps)\n*/\n",
    ),
    (
        "spthy prove three --budget 1",
        2,
        "\n/*\nonce (all-traces): analysis incomplete (1 steps)\nsome (exists-trace): analysis incomplete (1 steps)\nnone (all-traces): analysis incomplete (1 steps)\n*/\n",
    ),
    (
        "spthy prove three --lemma other",
        4,
        "refused: no lemma other\n",
    ),
    (
        "spthy prove three --lemma onc",
        4,
        "refused: no lemma onc\n",
    ),
    (
        "spthy prove three --lemma Make",
        4,
        "refused: no lemma Make\n",
    ),
    (
        "spthy prove wrong --lemma other",
        4,
        "fatal: rule Make: variable k not bound\n",
    ),
    (
        "spthy prove open --lemma other",
        4,
        "refused: text at byte 15\n",
    ),
    (
        "spthy prove loop --budget 11",
        2,
        "\n/*\norigin (all-traces): analysis incomplete (11 steps)\nsecond (all-traces): analysis incomplete (11 steps)\n*/\n",
    ),
    (
        "spthy prove loop",
        0,
        "\n/*\norigin (all-traces): verified (12 steps)\nsecond (all-traces): verified (4 steps)\n*/\n",
    ),
    (
        "spthy prove loop --lemma second --budget 11",
        2,
        "\n/*\nsecond (all-traces): analysis incomplete (11 steps)\n*/\n",
    ),
    (
        "spthy prove heard",
        0,
        "\n/*\norigin (all-traces): verified (12 steps)\nheard (all-traces, over learning logs): verified (5 steps)\n*/\n",
    ),
    (
        "spthy prove heard --lemma heard --budget 20",
        2,
        "\n/*\nheard (all-traces, over learning logs): analysis incomplete (20 steps)\n*/\n",
    ),
    (
        "spthy prove taken",
        0,
        "\n/*\norigin (all-traces, over learning logs): verified (16 steps)\nsecond (all-traces): verified (7 steps)\n*/\n",
    ),
    (
        "spthy prove taken --lemma second --budget 20",
        2,
        "\n/*\nsecond (all-traces): analysis incomplete (20 steps)\n*/\n",
    ),
    ("spthy prove three --budget 0", 5, "refused: usage\n"),
];

fn cases() -> &'static [(&'static str, u8, &'static str)] {
    &ENDS
}

#[test]
fn a_lemma_that_is_named_is_run_alone(rt: HostRuntime) -> Result<(), Fail> {
    let alloc = rt.alloc();
    let mut library = library(alloc)?;
    for (line, status, end) in cases().iter() {
        let words = words_of(alloc, line)?;
        let mut sink = MemSink::new(alloc, 100, 10_000)?;
        let ended = run(alloc, &words, &mut library, &mut sink);
        assert!(rt; sink.written().ends_with(end.as_bytes()), "{line}");
        assert_eq!(rt; ended as u8, *status, "{line}");
    }
    Ok(())
}
