// Calls of the program on a text in memory.

use sp_io::{MemLibrary, MemSink};
use sp_top::{Words, run};
use std::alloc::{AllocError, Global};
use std::process::Abort;
use std::test::Fail;

/// The words of a line, between blanks.
pub(crate) fn words_of(alloc: Global, line: &str) -> Result<Words, AllocError> {
    let mut words = Words::new(alloc);
    for word in line.split(' ') {
        words.push(word)?;
    }
    Ok(words)
}

/// The words of the command, whose file is `text`.
pub(crate) fn words_on_text(alloc: Global, command: &str) -> Result<Words, AllocError> {
    let mut words = Words::new(alloc);
    for word in ["spthy", command, "text"] {
        words.push(word)?;
    }
    Ok(words)
}

/// Asserts that the command answers this to the text.
pub(crate) fn assert_answer(
    rt: &impl Abort,
    alloc: Global,
    command: &str,
    text: &str,
    status: u8,
    answer: &str,
) -> Result<(), Fail> {
    let words = words_on_text(alloc, command)?;
    let mut library = MemLibrary::new(alloc);
    library.put("text", text.as_bytes())?;
    let mut sink = MemSink::new(alloc, 100, 10_000)?;
    let ended = run(alloc, &words, &mut library, &mut sink);
    assert_eq!(rt; sink.written(), answer.as_bytes(), "{command} {text}");
    assert_eq!(rt; ended as u8, status, "{command} {text}");
    Ok(())
}

/// Asserts that this is answered to the words of a line about `text`.
pub(crate) fn assert_line(
    rt: &impl Abort,
    alloc: Global,
    line: &str,
    text: &str,
    status: u8,
    answer: &str,
) -> Result<(), Fail> {
    let words = words_of(alloc, line)?;
    let mut library = MemLibrary::new(alloc);
    library.put("text", text.as_bytes())?;
    let mut sink = MemSink::new(alloc, 100, 10_000)?;
    let ended = run(alloc, &words, &mut library, &mut sink);
    assert_eq!(rt; sink.written(), answer.as_bytes(), "{line} {text}");
    assert_eq!(rt; ended as u8, status, "{line} {text}");
    Ok(())
}

/// What is written to the words of a line about `text`.
pub(crate) fn written_on(alloc: Global, line: &str, text: &str) -> Result<String, Fail> {
    let words = words_of(alloc, line)?;
    let mut library = MemLibrary::new(alloc);
    library.put("text", text.as_bytes())?;
    let mut sink = MemSink::new(alloc, 1_000, 100_000)?;
    run(alloc, &words, &mut library, &mut sink);
    let written = str::from_utf8(sink.written())?;
    let copied = String::from_str(alloc, written)?;
    Ok(copied)
}

/// What the command writes of the text.
pub(crate) fn written_by(alloc: Global, command: &str, text: &str) -> Result<String, Fail> {
    let words = words_on_text(alloc, command)?;
    let mut library = MemLibrary::new(alloc);
    library.put("text", text.as_bytes())?;
    let mut sink = MemSink::new(alloc, 1_000, 100_000)?;
    run(alloc, &words, &mut library, &mut sink);
    let written = str::from_utf8(sink.written())?;
    let copied = String::from_str(alloc, written)?;
    Ok(copied)
}

/// Asserts that the steps of the execution in the summary of a lemma, if there is one, are replayed to its trace, that each restriction is met, as these lines
/// tell, and that the lemma is as the trace tells: one on all traces is broken, and one on some trace is met.
fn assert_replayed(
    rt: &impl Abort,
    alloc: Global,
    theory: &str,
    met: &str,
    summary: &str,
) -> Result<(), Fail> {
    let Some((_, block)) = summary.split_once("execution:\n") else {
        return Ok(());
    };
    let (steps, trace) = block.split_once("trace:\n").ok_or("trace")?;
    let (lemma, _) = summary.split_once(": ").ok_or("lemma")?;
    let truth = if lemma.contains("(all-traces)") {
        "broken"
    } else {
        "met"
    };
    let text = format!(in alloc; "{theory}{steps}")?;
    let answer = format!(in alloc; "trace:\n{trace}{met}{lemma}: {truth}\n")?;
    assert_answer(rt, alloc, "replay", text.as_str(), 0, answer.as_str())?;
    Ok(())
}

/// The summary of the lemma over these items, of whose restrictions these lines tell that they are met. It is asserted that the proof which is written is
/// checked to the same summary, and that the execution that was found, if one was, is replayed to its trace and meets the restrictions.
pub(crate) fn summary_under(
    rt: &impl Abort,
    alloc: Global,
    items: &str,
    met: &str,
    lemma: &str,
) -> Result<String, Fail> {
    let theory = format!(in alloc; "theory T begin\n{items}lemma {lemma}\nend\n")?;
    let written = written_by(alloc, "prove", theory.as_str())?;
    let (_, comment) = written.as_str().split_once("\nend\n/*\n").ok_or("summary")?;
    let (summary, _) = comment.split_once("*/\n").ok_or("end of the summary")?;
    let checked = written_by(alloc, "check", written.as_str())?;
    assert_eq!(rt; checked.as_str(), summary, "{written}");
    assert_replayed(rt, alloc, theory.as_str(), met, summary)?;
    Ok(checked)
}

/// The summary of the lemma over these items, which have no restriction.
pub(crate) fn summary_of(
    rt: &impl Abort,
    alloc: Global,
    items: &str,
    lemma: &str,
) -> Result<String, Fail> {
    summary_under(rt, alloc, items, "", lemma)
}
