// Answers and their causes: refusals, statuses, and faults of libraries and sinks. The places are counted by hand.

use crate::calls::{words_of, words_on_text};
use sp_io::{MemLibrary, MemSink, SureLibrary, SureSink};
use sp_top::{Status, run};
use std::alloc::{AllocError, Global};
use std::process::Abort;
use std::test::Fail;

/// How many bytes a text may have.
const LIMIT: usize = 1_048_576;

/// Short texts under their names.
static TEXTS: [(&str, &[u8]); 11] = [
    ("short", b"no theory"),
    (
        "wrong",
        b"theory R1 begin rule Make: [ ] --[ A(~k) ]-> [ ] lemma once: \"All x #i. A(x)@i ==> #i = #i\" end",
    ),
    (
        "unguarded",
        b"theory R1 begin rule Make: [ Fr(~k) ] --[ A(~k) ]-> [ ] lemma once: \"All x y #i. A(x)@i ==> x = y\" end",
    ),
    (
        "two_rules",
        b"theory R1 begin rule Make: [ ] --> [ ] rule Make: [ ] --[ A('c') ]-> [ ] end",
    ),
    (
        "two_lemmas",
        b"theory R1 begin lemma one: \"T\" lemma one: exists-trace \"F\" end",
    ),
    ("empty", b""),
    ("open", b"theory X begin /* ab"),
    (
        "no_qed",
        b"theory R1 begin
rule Make: [ Fr(~k) ] --[ A(~k) ]-> [ ]
lemma once: \"All x #i #j. A(x)@i & A(x)@j ==> #i = #j\"
simplify
solve( action 0 )
  case Make
  solve( action 0 )
    case Make
    by contradiction
  qed

end
",
    ),
    ("no_code", b"theory R1 begin\xFF end"),
    ("no_code_in_comment", b"theory R1 begin // \xFF\nend"),
    ("cut", b"theory R begin lemma"),
];

fn texts() -> &'static [(&'static str, &'static [u8])] {
    &TEXTS
}

/// A theory behind a comment, which with it has as many bytes as a text may have.
fn padded(alloc: Global) -> Result<Vec<u8>, AllocError> {
    let mut text = vec![in alloc; b'/', b'*']?;
    for _ in 0..LIMIT - 23 {
        text.push(b'x')?;
    }
    text.extend_from_slice(b"*/ theory P begin end")?;
    Ok(text)
}

/// The 129th bracket stands at byte 153.
fn nested(alloc: Global, brackets: usize) -> Result<Vec<u8>, AllocError> {
    let mut text = Vec::new(alloc);
    text.extend_from_slice(b"theory N begin lemma a: \"")?;
    for _ in 0..brackets {
        text.push(b'(')?;
    }
    text.push(b'T')?;
    for _ in 0..brackets {
        text.push(b')')?;
    }
    text.extend_from_slice(b"\" end")?;
    Ok(text)
}

/// The short texts, those with 128 and 129 brackets, one as long as a text may be, and one longer.
fn library(alloc: Global) -> Result<MemLibrary, AllocError> {
    let mut library = MemLibrary::new(alloc);
    for (name, text) in texts().iter() {
        library.put(name, text)?;
    }
    library.put("deep", &nested(alloc, 128)?)?;
    library.put("too_deep", &nested(alloc, 129)?)?;
    let mut text = padded(alloc)?;
    library.put("limit", &text)?;
    text.push(b'x')?;
    library.put("long", &text)?;
    Ok(library)
}

/// The line of a command, the status, and the answer.
static ANSWERS: [(&str, u8, &str); 23] = [
    ("spthy prove", 5, "refused: usage\n"),
    ("spthy prove short more", 5, "refused: usage\n"),
    ("spthy look short", 5, "refused: usage\n"),
    ("spthy prove -x", 5, "refused: usage\n"),
    (
        "spthy prove wrong",
        4,
        "fatal: rule Make: variable k not bound\n",
    ),
    (
        "spthy check unguarded",
        4,
        "fatal: formula once: variable y not guarded\n",
    ),
    ("spthy prove two_rules", 4, "fatal: name Make used twice\n"),
    ("spthy check two_lemmas", 4, "fatal: name one used twice\n"),
    ("spthy replay two_lemmas", 4, "fatal: name one used twice\n"),
    ("spthy prove short", 4, "refused: text at byte 0\n"),
    ("spthy check short", 4, "refused: text at byte 0\n"),
    ("spthy prove empty", 4, "refused: text at byte 0\n"),
    ("spthy prove open", 4, "refused: text at byte 15\n"),
    ("spthy check no_qed", 4, "refused: text at byte 212\n"),
    ("spthy prove too_deep", 4, "refused: text at byte 153\n"),
    (
        "spthy check deep",
        2,
        "a (all-traces): analysis incomplete (0 steps)\n",
    ),
    ("spthy check no_code", 4, "refused: text at byte 15\n"),
    ("spthy check no_code_in_comment", 0, ""),
    ("spthy replay cut", 4, "refused: text at byte 20\n"),
    ("spthy check limit", 0, ""),
    (
        "spthy prove long",
        9,
        "refused: text longer than 1048576 bytes\n",
    ),
    ("spthy prove absent", 6, "refused: read fault\n"),
    ("spthy prove -", 6, "refused: read fault\n"),
];

fn answer_cases() -> &'static [(&'static str, u8, &'static str)] {
    &ANSWERS
}

#[test]
fn answers_have_their_causes(rt: HostRuntime) -> Result<(), Fail> {
    let alloc = rt.alloc();
    let mut library = library(alloc)?;
    for (line, status, answer) in answer_cases().iter() {
        let words = words_of(alloc, line)?;
        let mut sink = MemSink::new(alloc, 10, 100)?;
        let ended = run(alloc, &words, &mut library, &mut sink);
        assert_eq!(rt; sink.written(), answer.as_bytes(), "{line}");
        assert_eq!(rt; ended as u8, *status, "{line}");
    }
    Ok(())
}

/// The first theory.
const THEORY: &str = "theory R1 begin
rule Make: [ Fr(~k) ] --[ A(~k) ]-> [ ]
lemma once: \"All x #i #j. A(x)@i & A(x)@j ==> #i = #j\"
end
";

/// What is answered to it.
const ANSWER: &str = "theory R1 begin
rule Make: [ Fr(~k) ] --[ A(~k) ]-> [ ]
lemma once: \"All x #i #j. A(x)@i & A(x)@j ==> #i = #j\"
simplify
solve( action 0 )
  case Make
  solve( action 0 )
    case Make
    by contradiction
  qed
qed

end
/*
once (all-traces): verified (4 steps)
*/
";

/// The library that holds it.
fn with_theory(alloc: Global) -> Result<MemLibrary, AllocError> {
    let mut library = MemLibrary::new(alloc);
    library.put("text", THEORY.as_bytes())?;
    Ok(library)
}

/// One of the first five calls fails.
#[test]
fn after_a_write_fault_a_beginning_stands(rt: HostRuntime) -> Result<(), Fail> {
    let alloc = rt.alloc();
    let words = words_on_text(alloc, "prove")?;
    for call in 1..6u64 {
        let mut library = with_theory(alloc)?;
        let mut sink = MemSink::new(alloc, 64, 1000)?;
        sink.fail_at(call)?;
        let ended = run(alloc, &words, &mut library, &mut sink);
        assert_eq!(rt; ended as u8, 7);
        assert_eq!(rt; sink.written().len(), 64 * (call as usize - 1));
        assert!(rt; ANSWER.as_bytes().starts_with(sink.written()));
        assert_eq!(rt; sink.faults(), 1);
    }
    let mut full = MemSink::new(alloc, 100, 7)?;
    let ended = run(alloc, &words, &mut with_theory(alloc)?, &mut full);
    assert_eq!(rt; ended as u8, 7);
    assert_eq!(rt; full.written(), b"theory ".as_slice());
    Ok(())
}

#[test]
fn a_failing_library_is_a_read_fault(rt: HostRuntime) -> Result<(), Fail> {
    let alloc = rt.alloc();
    let words = words_on_text(alloc, "prove")?;
    let mut library = with_theory(alloc)?;
    library.fail_at(1)?;
    let mut sink = MemSink::new(alloc, 10, 100)?;
    let ended = run(alloc, &words, &mut library, &mut sink);
    assert_eq!(rt; ended, Status::ReadFault);
    assert_eq!(rt; sink.written(), b"refused: read fault\n".as_slice());
    assert_eq!(rt; library.faults(), 1);
    assert_eq!(rt; library.asked().len(), 1);
    let mut library = with_theory(alloc)?;
    library.fail_at(1)?;
    let mut sink = MemSink::new(alloc, 64, 1000)?;
    sink.fail_at(1)?;
    let ended = run(alloc, &words, &mut library, &mut sink);
    assert_eq!(rt; ended, Status::WriteFault);
    assert_eq!(rt; sink.written(), b"".as_slice());
    Ok(())
}

#[test]
fn each_beginning_of_a_text_is_refused(rt: HostRuntime) -> Result<(), Fail> {
    let alloc = rt.alloc();
    let words = words_on_text(alloc, "prove")?;
    for (end, _) in THEORY.char_indices() {
        if end + 1 < THEORY.len() {
            let mut library = SureLibrary::new(Vec::from_slice(alloc, &THEORY.as_bytes()[..end])?);
            let mut sink = SureSink;
            let ended = run(alloc, &words, &mut library, &mut sink);
            assert_eq!(rt; ended as u8, 4, "{end}");
        }
    }
    Ok(())
}
