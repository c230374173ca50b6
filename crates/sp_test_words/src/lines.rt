// Lines of the command, and words that are none.

use sp_words::{Text, read_request};
use std::alloc::{AllocError, Global};
use std::test::Fail;

/// Words, with a blank between any two, and what they ask for: the command, FILE or N, the budget, and the lemma that is named.
static LINES: [(&str, &str); 26] = [
    ("spthy prove x", "Prove x 10000 None"),
    ("spthy check x", "Check x 10000 None"),
    ("spthy replay x", "Replay x 10000 None"),
    ("spthy variants x", "Variants x 10000 None"),
    ("other prove x", "Prove x 10000 None"),
    ("spthy prove -", "Prove - 10000 None"),
    ("spthy prove -- -x", "Prove -x 10000 None"),
    ("spthy prove x --budget 5", "Prove x 5 None"),
    ("spthy prove --budget 5 x", "Prove x 5 None"),
    ("spthy prove x --budget=5", "Prove x 5 None"),
    ("spthy prove x --budget 1", "Prove x 1 None"),
    ("spthy prove x --budget 1000000", "Prove x 1000000 None"),
    ("spthy prove x --lemma one", "Prove x 10000 Some(\"one\")"),
    ("spthy prove --lemma=one x", "Prove x 10000 Some(\"one\")"),
    (
        "spthy prove --lemma one x --budget 7",
        "Prove x 7 Some(\"one\")",
    ),
    (
        "spthy prove --budget=7 --lemma one -- x",
        "Prove x 7 Some(\"one\")",
    ),
    ("spthy wf f", "Wf f 10000 None"),
    ("spthy wf -- -f", "Wf -f 10000 None"),
    ("spthy graph f --lemma x", "Graph f 10000 Some(\"x\")"),
    ("spthy graph --lemma=x f", "Graph f 10000 Some(\"x\")"),
    ("spthy gen 1", "Gen #1 10000 None"),
    ("spthy gen 500", "Gen #500 10000 None"),
    ("spthy gen 500 --budget 7", "Gen #500 7 None"),
    ("spthy gen --budget=7 20", "Gen #20 7 None"),
    ("spthy gen -- 20", "Gen #20 10000 None"),
    ("spthy gen 20 --budget 1000000", "Gen #20 1000000 None"),
];

/// Words that are no line.
static OTHERS: [&str; 71] = [
    "",
    "spthy",
    "spthy look x",
    "spthy Prove x",
    "spthy prov x",
    "spthy prove",
    "spthy prove x y",
    "spthy prove -x",
    "spthy prove -- x y",
    "spthy x prove",
    "spthy -- prove x",
    "spthy --budget 5 prove x",
    "spthy check x --budget 5",
    "spthy replay x --lemma one",
    "spthy variants x --budget=5",
    "spthy prove x --budget",
    "spthy prove --budget 5",
    "spthy prove x --budget=",
    "spthy prove x --budget 0",
    "spthy prove x --budget 05",
    "spthy prove x --budget +5",
    "spthy prove x --budget -5",
    "spthy prove x --budget 5.0",
    "spthy prove x --budget five",
    "spthy prove x --budget 1000001",
    "spthy prove x --budget 18446744073709551617",
    "spthy prove x --budget 5 --budget 5",
    "spthy prove x --budget 5 6",
    "spthy prove x --lemma",
    "spthy prove x --lemma --budget 5",
    "spthy prove x --lemma one --lemma two",
    "spthy prove x --bud 5",
    "spthy prove x -b 5",
    "spthy prove x --depth 5",
    "spthy --help",
    "spthy -h",
    "spthy help",
    "spthy help prove",
    "spthy prove --help",
    "spthy prove x -h",
    "spthy --version",
    "spthy wf",
    "spthy wf f g",
    "spthy wf f --budget 1",
    "spthy wf f --lemma x",
    "spthy Wf f",
    "spthy graph",
    "spthy graph f",
    "spthy graph f --lemma",
    "spthy graph --lemma x",
    "spthy graph f g --lemma x",
    "spthy graph f --lemma x --budget 3",
    "spthy graph f --lemma x --lemma y",
    "spthy gen",
    "spthy gen 0",
    "spthy gen 501",
    "spthy gen 05",
    "spthy gen +5",
    "spthy gen -5",
    "spthy gen -- -5",
    "spthy gen 5.0",
    "spthy gen five",
    "spthy gen 65537",
    "spthy gen 18446744073709551617",
    "spthy gen 2 3",
    "spthy gen 2 --lemma x",
    "spthy gen 2 --budget 0",
    "spthy gen 2 --budget 1000001",
    "spthy gen 2 --budget",
    "spthy gen --budget 5",
    "spthy gen --help",
];

fn lines() -> &'static [(&'static str, &'static str)] {
    &LINES
}

fn others() -> &'static [&'static str] {
    &OTHERS
}

/// FILE, or the number behind a `#`.
fn named(alloc: Global, text: Text<'_>) -> Result<String, AllocError> {
    match text {
        Text::File(name) => String::from_str(alloc, name),
        Text::Made(number) => format!(in alloc; "#{number}"),
    }
}

/// What is read from these words.
fn told(alloc: Global, line: &str) -> Result<String, Fail> {
    let mut words = Vec::new(alloc);
    for word in line.split(' ') {
        words.push(word)?;
    }
    let answer = match read_request(alloc, words.as_slice()) {
        Ok(request) => {
            let text = named(alloc, request.text)?;
            format!(in alloc;
                "{:?} {text} {} {:?}",
                request.command, request.budget, request.lemma
            )?
        }
        Err(cause) => format!(in alloc; "{cause}")?,
    };
    Ok(answer)
}

#[test]
fn lines_are_read(rt: HostRuntime) -> Result<(), Fail> {
    for (line, answer) in lines().iter() {
        let found = told(rt.alloc(), line)?;
        assert_eq!(rt; found.as_str(), *answer, "{line}");
    }
    Ok(())
}

#[test]
fn other_words_are_refused(rt: HostRuntime) -> Result<(), Fail> {
    for line in others().iter() {
        let found = told(rt.alloc(), line)?;
        assert_eq!(rt;
            found.as_str(),
            "the words are no line of the command",
            "{line}"
        );
    }
    Ok(())
}

#[test]
fn no_words_are_no_line(rt: HostRuntime) {
    let none: [&str; 0] = [];
    assert!(rt; read_request(rt.alloc(), none.as_slice()).is_err());
}
