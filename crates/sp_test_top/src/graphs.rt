// Graphs of the logs that are found. Each is argued from its log, entry by entry: what a premise takes, what is sent, made, and taken apart.

use crate::calls::{assert_line, written_on};
use serde_json::Value;
use std::test::Fail;

/// A theory, one of its lemmas, and the graph of the log that is found for it.
static GRAPHS: [(&str, &str, &str); 6] = [
    // two steps, of which none takes anything from the other
    (
        "theory Found begin
rule Make: [ Fr(~k) ] --[ A(~k) ]-> [ ]
lemma alone: \"All x y #i #j. A(x)@i & A(y)@j ==> #i = #j\"
end",
        "alone",
        "{\"edges\":[],\"lemma\":\"alone\",\"nodes\":[{\"kind\":\"rule\",\"text\":\"Make: k = ~n1\"},\
{\"kind\":\"rule\",\"text\":\"Make: k = ~n2\"}]}",
    ),
    // a name that is learnt is sent twice, and taken once
    (
        "theory Echo begin
rule Echo: [ In(x) ] --[ Echoed(x) ]-> [ Out(x) ]
rule Hide: [ Fr(~s) ] --[ Hidden(~s) ]-> [ ]
lemma echoed: \"All x #i. Echoed(x)@i ==> not (Ex #j. K(x)@j)\"
lemma hidden: \"All x #i. Hidden(x)@i ==> not (Ex #j. K(x)@j)\"
end",
        "echoed",
        "{\"edges\":[{\"from\":0,\"kind\":\"learn\",\"to\":1},\
{\"from\":1,\"kind\":\"fact\",\"to\":2},\
{\"from\":0,\"kind\":\"learn\",\"to\":3}]\
,\"lemma\":\"echoed\",\"nodes\":[\
{\"kind\":\"learn\",\"text\":\"'a1' (pub)\"},\
{\"kind\":\"send\",\"text\":\"'a1'\"},\
{\"kind\":\"rule\",\"text\":\"Echo: x = 'a1'\"},\
{\"kind\":\"send\",\"text\":\"'a1'\"}]}",
    ),
    // a key that two rules take; what it opens is learnt from the message alone
    (
        "theory Revealed begin
builtins: symmetric-encryption
rule Share: [ Fr(~k) ] --> [ !Shared(~k) ]
rule Send: [ !Shared(k), Fr(~n) ] --[ Sent(~n, k) ]-> [ Out(senc(~n, k)) ]
rule Reveal: [ !Shared(k) ] --[ Revealed(k) ]-> [ Out(k) ]
lemma secrecy: \"All n k #i. Sent(n, k)@i ==> not (Ex #j. K(n)@j)\"
lemma revealed: \"All n k #i #j. Sent(n, k)@i & K(n)@j ==> Ex #r. Revealed(k)@r\"
end",
        "secrecy",
        "{\"edges\":[{\"from\":0,\"kind\":\"fact\",\"to\":1},\
{\"from\":0,\"kind\":\"fact\",\"to\":2},\
{\"from\":2,\"kind\":\"learn\",\"to\":3},\
{\"from\":1,\"kind\":\"learn\",\"to\":4},\
{\"from\":4,\"kind\":\"learn\",\"to\":5}]\
,\"lemma\":\"secrecy\",\"nodes\":[\
{\"kind\":\"rule\",\"text\":\"Share: k = ~n1\"},\
{\"kind\":\"rule\",\"text\":\"Send: k = ~n1, n = ~n2\"},\
{\"kind\":\"rule\",\"text\":\"Reveal: k = ~n1\"},\
{\"kind\":\"learn\",\"text\":\"~n1 (chain)\"},\
{\"kind\":\"learn\",\"text\":\"~n2 (chain)\"},\
{\"kind\":\"send\",\"text\":\"~n2\"}]}",
    ),
    // the linear fact of a commitment is opened once
    (
        "theory Commitment begin
builtins: hashing
rule Commit: [ Fr(~m), Fr(~r) ] --[ Commits(~m) ]-> [ Out(h(<~m, ~r>)), Committed(~m, ~r) ]
rule Open: [ Committed(m, r) ] --[ Opens(m) ]-> [ Out(<m, r>) ]
lemma secrecy: \"All m #i. Commits(m)@i ==> not (Ex #j. K(m)@j)\"
lemma hiding: \"All m #i #j. Commits(m)@i & K(m)@j ==> Ex #k. Opens(m)@k & #k < #j\"
end",
        "secrecy",
        "{\"edges\":[{\"from\":0,\"kind\":\"fact\",\"to\":1},\
{\"from\":1,\"kind\":\"learn\",\"to\":2},\
{\"from\":2,\"kind\":\"learn\",\"to\":3}]\
,\"lemma\":\"secrecy\",\"nodes\":[\
{\"kind\":\"rule\",\"text\":\"Commit: m = ~n1, r = ~n2\"},\
{\"kind\":\"rule\",\"text\":\"Open: m = ~n1, r = ~n2\"},\
{\"kind\":\"learn\",\"text\":\"~n1 (chain)\"},\
{\"kind\":\"send\",\"text\":\"~n1\"}]}",
    ),
    // a message is made of two parts, each learnt from one step, and sent twice
    (
        "theory Signed begin
builtins: signing
rule Key: [ Fr(~k) ] --> [ !Private(~k), !Public(pk(~k)), Out(pk(~k)) ]
rule Sign: [ !Private(k), Fr(~m) ] --[ Signed(~m) ]-> [ Out(<~m, sign(~m, k)>) ]
rule Accept: [ !Public(pk(k)), In(<m, sign(m, k)>) ] --[ Accepted(m) ]-> [ ]
lemma agreement: \"All m #i. Accepted(m)@i ==> Ex #j. Signed(m)@j\"
lemma injective: \"All m #i #j. Accepted(m)@i & Accepted(m)@j ==> #i = #j\"
end",
        "injective",
        "{\"edges\":[{\"from\":0,\"kind\":\"fact\",\"to\":1},\
{\"from\":1,\"kind\":\"learn\",\"to\":2},\
{\"from\":1,\"kind\":\"learn\",\"to\":3},\
{\"from\":2,\"kind\":\"learn\",\"to\":4},\
{\"from\":3,\"kind\":\"learn\",\"to\":4},\
{\"from\":4,\"kind\":\"learn\",\"to\":5},\
{\"from\":0,\"kind\":\"fact\",\"to\":6},\
{\"from\":5,\"kind\":\"fact\",\"to\":6},\
{\"from\":4,\"kind\":\"learn\",\"to\":7},\
{\"from\":0,\"kind\":\"fact\",\"to\":8},\
{\"from\":7,\"kind\":\"fact\",\"to\":8}]\
,\"lemma\":\"injective\",\"nodes\":[\
{\"kind\":\"rule\",\"text\":\"Key: k = ~n1\"},\
{\"kind\":\"rule\",\"text\":\"Sign: k = ~n1, m = ~n2\"},\
{\"kind\":\"learn\",\"text\":\"~n2 (chain)\"},\
{\"kind\":\"learn\",\"text\":\"sign(~n2, ~n1) (chain)\"},\
{\"kind\":\"learn\",\"text\":\"<~n2, sign(~n2, ~n1)> (made)\"},\
{\"kind\":\"send\",\"text\":\"<~n2, sign(~n2, ~n1)>\"},\
{\"kind\":\"rule\",\"text\":\"Accept: k = ~n1, m = ~n2\"},\
{\"kind\":\"send\",\"text\":\"<~n2, sign(~n2, ~n1)>\"},\
{\"kind\":\"rule\",\"text\":\"Accept: k = ~n1, m = ~n2\"}]}",
    ),
    // a premise that the fresh rule gives has no edge
    (
        "theory Yahalom begin
builtins: symmetric-encryption
rule Share: [ Fr(~k) ] --> [ !Shared($A, ~k) ]
rule Begin: [ Fr(~na) ] --[ Begun(~na) ]-> [ Out(<$A, ~na>) ]
rule Answer: [ !Shared($B, k), In(<$A, na>), Fr(~nb) ] --[ Answered(~nb) ]-> [ Out(<$B, senc(<$A, na, ~nb>, k)>) ]
lemma begun: \"All n #i. Begun(n)@i ==> not (Ex #j. K(n)@j)\"
lemma answered: \"All n #i. Answered(n)@i ==> not (Ex #j. K(n)@j)\"
end",
        "begun",
        "{\"edges\":[{\"from\":0,\"kind\":\"learn\",\"to\":1},\
{\"from\":1,\"kind\":\"learn\",\"to\":2}]\
,\"lemma\":\"begun\",\"nodes\":[\
{\"kind\":\"rule\",\"text\":\"Begin: na = ~n1, A = 'a1'\"},\
{\"kind\":\"learn\",\"text\":\"~n1 (chain)\"},\
{\"kind\":\"send\",\"text\":\"~n1\"}]}",
    ),
];

fn graphs() -> &'static [(&'static str, &'static str, &'static str)] {
    &GRAPHS
}

#[test]
fn logs_are_drawn(rt: HostRuntime) -> Result<(), Fail> {
    let alloc = rt.alloc();
    for (text, lemma, graph) in graphs().iter() {
        let line = format!(in alloc; "spthy graph text --lemma {lemma}")?;
        let answer = format!(in alloc; "{graph}\n")?;
        assert_line(&rt, alloc, line.as_str(), text, 1, answer.as_str())?;
    }
    Ok(())
}

static MADE: &str = "theory R2 begin
rule Make: [ Fr(~k) ] --[ A(~k) ]-> [ ]
lemma some: exists-trace \"Ex x #i. A(x)@i\"
lemma none: exists-trace \"Ex #i. B()@i\"
end";

// One that satisfies its lemma, none, and none of a lemma that isn't there.
#[test]
fn graphs_end_as_their_lemmas_do(rt: HostRuntime) -> Result<(), Fail> {
    let alloc = rt.alloc();
    assert_line(
        &rt,
        alloc,
        "spthy graph text --lemma some",
        MADE,
        0,
        "{\"edges\":[],\"lemma\":\"some\",\"nodes\":[{\"kind\":\"rule\",\"text\":\"Make: k = ~n1\"}]}\n",
    )?;
    assert_line(
        &rt,
        alloc,
        "spthy graph text --lemma none",
        MADE,
        1,
        "no graph\n",
    )?;
    assert_line(
        &rt,
        alloc,
        "spthy graph --lemma nothing text",
        MADE,
        4,
        "refused: no lemma nothing\n",
    )?;
    Ok(())
}

// What is written is read as JSON, and each edge leads from a node to a later one.
#[test]
fn graphs_are_read_back(rt: HostRuntime) -> Result<(), Fail> {
    let alloc = rt.alloc();
    for (text, lemma, _) in graphs().iter() {
        let line = format!(in alloc; "spthy graph text --lemma {lemma}")?;
        let written = written_on(alloc, line.as_str(), text)?;
        let graph = Value::from_str(alloc, written.as_str())?;
        let named = graph.get("lemma").and_then(Value::as_str).ok_or("lemma")?;
        assert_eq!(&rt; named, *lemma);
        let nodes = graph.get("nodes").and_then(Value::as_array).ok_or("nodes")?;
        let edges = graph.get("edges").and_then(Value::as_array).ok_or("edges")?;
        for edge in edges.iter() {
            let from = edge.get("from").and_then(Value::as_u64).ok_or("from")?;
            let to = edge.get("to").and_then(Value::as_u64).ok_or("to")?;
            assert!(&rt; from < to && (to as usize) < nodes.len(), "{written}");
        }
    }
    Ok(())
}
