// Protocols whose messages pass through the adversary. The verdicts are argued by hand, a protocol at a time.

use crate::calls::summary_of;
use std::alloc::Global;
use std::process::Abort;
use std::test::Fail;

/// A protocol, its lemmas, and the beginning of the line of each.
#[derive(Clone, Copy)]
struct Protocol {
    items: &'static str,
    lemmas: &'static [(&'static str, &'static str)],
}

/// A nonce that is sent in the clear.
const CLEAR: Protocol = Protocol {
    items: "rule Send: [ Fr(~n) ] --[ Sent(~n) ]-> [ Out(~n) ]\n",
    lemmas: &[
        // Who listens has it.
        (
            "secrecy: \"All n #i. Sent(n)@i ==> not (Ex #j. K(n)@j)\"",
            "secrecy (all-traces): falsified - found trace",
        ),
        // It is random: before it is sent nobody has it.
        (
            "first: \"All n #i #j. Sent(n)@i & K(n)@j ==> #i < #j\"",
            "first (all-traces): verified",
        ),
    ],
};

/// A nonce under a key that two share and that never leaves them.
const ENCRYPTED: Protocol = Protocol {
    items: "builtins: symmetric-encryption
rule Share: [ Fr(~k) ] --> [ !Shared(~k) ]
rule Send: [ !Shared(k), Fr(~n) ] --[ Sent(~n) ]-> [ Out(senc(~n, k)) ]
",
    lemmas: &[
        // To open the message takes the key, which is in no message.
        (
            "secrecy: \"All n #i. Sent(n)@i ==> not (Ex #j. K(n)@j)\"",
            "secrecy (all-traces): verified",
        ),
        // The message itself is on the wire.
        (
            "seen: exists-trace \"Ex n k #i #j. Sent(n)@i & K(senc(n, k))@j\"",
            "seen (exists-trace): verified",
        ),
    ],
};

/// The same, where a rule gives keys away.
const REVEALED: Protocol = Protocol {
    items: "builtins: symmetric-encryption
rule Share: [ Fr(~k) ] --> [ !Shared(~k) ]
rule Send: [ !Shared(k), Fr(~n) ] --[ Sent(~n, k) ]-> [ Out(senc(~n, k)) ]
rule Reveal: [ !Shared(k) ] --[ Revealed(k) ]-> [ Out(k) ]
",
    lemmas: &[
        // The key is revealed, and opens the message.
        (
            "secrecy: \"All n k #i. Sent(n, k)@i ==> not (Ex #j. K(n)@j)\"",
            "secrecy (all-traces): falsified - found trace",
        ),
        // Nothing else opens it, neither another's key nor what is encrypted elsewhere.
        (
            "revealed: \"All n k #i #j. Sent(n, k)@i & K(n)@j ==> Ex #r. Revealed(k)@r\"",
            "revealed (all-traces): verified",
        ),
    ],
};

/// A secret under a key of its own, which a rule may give away.
const KEYED: Protocol = Protocol {
    items: "builtins: symmetric-encryption
rule Enc: [ Fr(~s), Fr(~k) ] --[ Secret(~s, ~k) ]-> [ Out(senc(~s, ~k)), !Key(~k) ]
rule Reveal: [ !Key(k) ] --[ Rev(k) ]-> [ Out(k) ]
",
    lemmas: &[
        // It takes the key to open the message, and only the other rule puts that out.
        (
            "revealed: \"All s k #i #j. Secret(s,k)@i & K(s)@j ==> Ex #r. Rev(k)@r\"",
            "revealed (all-traces): verified",
        ),
        // That rule may be done.
        (
            "secrecy: \"All s k #i. Secret(s,k)@i ==> not (Ex #j. K(s)@j)\"",
            "secrecy (all-traces): falsified - found trace",
        ),
    ],
};

/// Whatever comes in goes out again, beside a name that never leaves its rule.
const ECHO: Protocol = Protocol {
    items: "rule Echo: [ In(x) ] --[ Echoed(x) ]-> [ Out(x) ]
rule Hide: [ Fr(~s) ] --[ Hidden(~s) ]-> [ ]
",
    lemmas: &[
        // What comes in was sent by the adversary, who has it.
        (
            "echoed: \"All x #i. Echoed(x)@i ==> not (Ex #j. K(x)@j)\"",
            "echoed (all-traces): falsified - found trace",
        ),
        // An echo gives back only what was known before it.
        (
            "hidden: \"All x #i. Hidden(x)@i ==> not (Ex #j. K(x)@j)\"",
            "hidden (all-traces): verified",
        ),
        // So a hidden name is never echoed.
        (
            "apart: \"not (Ex x #i #j. Hidden(x)@i & Echoed(x)@j)\"",
            "apart (all-traces): verified",
        ),
    ],
};

/// Messages that are signed, and accepted by who has the public key.
const SIGNED: Protocol = Protocol {
    items: "builtins: signing
rule Key: [ Fr(~k) ] --> [ !Private(~k), !Public(pk(~k)), Out(pk(~k)) ]
rule Sign: [ !Private(k), Fr(~m) ] --[ Signed(~m) ]-> [ Out(<~m, sign(~m, k)>) ]
rule Accept: [ !Public(pk(k)), In(<m, sign(m, k)>) ] --[ Accepted(m) ]-> [ ]
",
    lemmas: &[
        // Nobody else makes a signature: the private key is in no message as such.
        (
            "agreement: \"All m #i. Accepted(m)@i ==> Ex #j. Signed(m)@j\"",
            "agreement (all-traces): verified",
        ),
        // The message is sent again: nothing in it says that it was accepted before.
        (
            "injective: \"All m #i #j. Accepted(m)@i & Accepted(m)@j ==> #i = #j\"",
            "injective (all-traces): falsified - found trace",
        ),
        // Each message has a nonce of its own.
        (
            "fresh: \"All m #i #j. Signed(m)@i & Signed(m)@j ==> #i = #j\"",
            "fresh (all-traces): verified",
        ),
    ],
};

/// The first two messages of Yahalom's protocol: the initiator's nonce goes in the clear, and the responder sends it on, with a nonce of its own, under
/// the key that it shares with the server.
const YAHALOM: Protocol = Protocol {
    items: "builtins: symmetric-encryption
rule Share: [ Fr(~k) ] --> [ !Shared($A, ~k) ]
rule Begin: [ Fr(~na) ] --[ Begun(~na) ]-> [ Out(<$A, ~na>) ]
rule Answer: [ !Shared($B, k), In(<$A, na>), Fr(~nb) ] --[ Answered(~nb) ]-> [ Out(<$B, senc(<$A, na, ~nb>, k)>) ]
",
    lemmas: &[
        // It goes in the clear.
        (
            "begun: \"All n #i. Begun(n)@i ==> not (Ex #j. K(n)@j)\"",
            "begun (all-traces): falsified - found trace",
        ),
        // It goes under the key alone.
        (
            "answered: \"All n #i. Answered(n)@i ==> not (Ex #j. K(n)@j)\"",
            "answered (all-traces): verified",
        ),
    ],
};

/// The first message of Otway and Rees's protocol: the name of the run is told twice, and the initiator's nonce under the key that it shares with the server.
const OTWAY_REES: Protocol = Protocol {
    items: "builtins: symmetric-encryption
rule Share: [ Fr(~k) ] --> [ !Shared($A, ~k) ]
rule Begin: [ !Shared($A, k), Fr(~m), Fr(~na) ] --[ Begun(~m, ~na) ]-> [ Out(<~m, $A, $B, senc(<~na, ~m, $A, $B>, k)>) ]
",
    lemmas: &[
        // It goes under the key alone.
        (
            "nonce: \"All m n #i. Begun(m, n)@i ==> not (Ex #j. K(n)@j)\"",
            "nonce (all-traces): verified",
        ),
        // It also stands beside what is encrypted.
        (
            "run: \"All m n #i. Begun(m, n)@i ==> not (Ex #j. K(m)@j)\"",
            "run (all-traces): falsified - found trace",
        ),
    ],
};

/// A commitment by a hash with a random value, which may be opened.
const OPENED: Protocol = Protocol {
    items: "builtins: hashing
rule Commit: [ Fr(~m), Fr(~r) ] --[ Commits(~m) ]-> [ Out(h(<~m, ~r>)), Committed(~m, ~r) ]
rule Open: [ Committed(m, r) ] --[ Opens(m) ]-> [ Out(<m, r>) ]
",
    lemmas: &[
        // What is opened is seen.
        (
            "secrecy: \"All m #i. Commits(m)@i ==> not (Ex #j. K(m)@j)\"",
            "secrecy (all-traces): falsified - found trace",
        ),
        // A hash gives nothing back.
        (
            "hiding: \"All m #i #j. Commits(m)@i & K(m)@j ==> Ex #k. Opens(m)@k\"",
            "hiding (all-traces): verified",
        ),
    ],
};

/// The same commitment where it is never opened.
const UNOPENED: Protocol = Protocol {
    items: "builtins: hashing
rule Commit: [ Fr(~m), Fr(~r) ] --[ Commits(~m) ]-> [ Out(h(<~m, ~r>)) ]
",
    lemmas: &[
        // A hash gives nothing back.
        (
            "secrecy: \"All m #i. Commits(m)@i ==> not (Ex #j. K(m)@j)\"",
            "secrecy (all-traces): verified",
        ),
        // It is on the wire.
        (
            "seen: exists-trace \"Ex m r #i #j. Commits(m)@i & K(h(<m, r>))@j\"",
            "seen (exists-trace): verified",
        ),
    ],
};

/// A key that is made of a name by a function which only the protocol's rules apply.
const PRIVATE: Protocol = Protocol {
    items: "builtins: symmetric-encryption
functions: key/1 [private]
rule Send: [ Fr(~n) ] --[ Sent(~n) ]-> [ Out(senc(~n, key($A))) ]
",
    lemmas: &[
        // The adversary doesn't apply it, and no message has the key as such.
        (
            "secrecy: \"All n #i. Sent(n)@i ==> not (Ex #j. K(n)@j)\"",
            "secrecy (all-traces): verified",
        ),
        (
            "key: exists-trace \"Ex a #i. K(key(a))@i\"",
            "key (exists-trace): falsified - no trace found",
        ),
    ],
};

/// The same where the adversary applies it too.
const PUBLIC: Protocol = Protocol {
    items: "builtins: symmetric-encryption
functions: key/1
rule Send: [ Fr(~n) ] --[ Sent(~n) ]-> [ Out(senc(~n, key($A))) ]
",
    lemmas: &[
        // Names are public, so the adversary makes the key.
        (
            "secrecy: \"All n #i. Sent(n)@i ==> not (Ex #j. K(n)@j)\"",
            "secrecy (all-traces): falsified - found trace",
        ),
    ],
};

/// Asserts that each lemma of the protocol is told as it is to be.
fn assert_protocol(rt: &impl Abort, alloc: Global, protocol: Protocol) -> Result<(), Fail> {
    for (lemma, line) in protocol.lemmas {
        let summary = summary_of(rt, alloc, protocol.items, lemma)?;
        assert!(rt; summary.as_str().starts_with(*line), "{lemma}: {summary}");
    }
    Ok(())
}

static SECRETS: [Protocol; 7] = [CLEAR, ENCRYPTED, REVEALED, KEYED, ECHO, PRIVATE, PUBLIC];

fn secrets() -> &'static [Protocol] {
    &SECRETS
}

#[test]
fn secrets_are_tried(rt: HostRuntime) -> Result<(), Fail> {
    let alloc = rt.alloc();
    for protocol in secrets().iter() {
        assert_protocol(&rt, alloc, *protocol)?;
    }
    Ok(())
}

static SIGNATURES: [Protocol; 3] = [SIGNED, OPENED, UNOPENED];

fn signatures() -> &'static [Protocol] {
    &SIGNATURES
}

#[test]
fn signatures_and_commitments_are_tried(rt: HostRuntime) -> Result<(), Fail> {
    let alloc = rt.alloc();
    for protocol in signatures().iter() {
        assert_protocol(&rt, alloc, *protocol)?;
    }
    Ok(())
}

static FIRST_MESSAGES: [Protocol; 2] = [YAHALOM, OTWAY_REES];

fn first_messages() -> &'static [Protocol] {
    &FIRST_MESSAGES
}

#[test]
fn first_messages_are_tried(rt: HostRuntime) -> Result<(), Fail> {
    let alloc = rt.alloc();
    for protocol in first_messages().iter() {
        assert_protocol(&rt, alloc, *protocol)?;
    }
    Ok(())
}

/// What a rule sends may be taken later or never, and anything may be taken before: the lemma is false. To see so takes both orders of two steps.
const COMPARED: (&str, &str, &str) = (
    "rule First: [ Fr(~x) ] --[ A(~x) ]-> [ Out(~x) ]
rule Second: [ In(y) ] --[ B(y) ]-> [ ]
",
    "order: \"All x y #i #j. A(x)@i & B(y)@j ==> #i < #j\"",
    "order (all-traces): falsified - found trace (7 steps)",
);

fn compared() -> (&'static str, &'static str, &'static str) {
    COMPARED
}

#[test]
fn orders_are_decided(rt: HostRuntime) -> Result<(), Fail> {
    let alloc = rt.alloc();
    let (items, lemma, line) = compared();
    let summary = summary_of(&rt, alloc, items, lemma)?;
    assert!(rt; summary.as_str().starts_with(line), "{summary}");
    Ok(())
}
