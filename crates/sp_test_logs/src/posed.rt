// The public names of theories, rules with their variables numbered, and what texts pose.

use sp_declared::public_names::constants;
use sp_fact::fact::{Action, Fact, Facts};
use sp_fact::rule::Rule;
use sp_pose::{GuardedRestriction, Read, numbered, posed_by};
use sp_read_theory::read_theory;
use sp_term::term::{Name, Sort, all_same};
use sp_test_make::facts::{action, linear, persistent, rule};
use sp_test_make::terms::{constant, variable, variables};
use sp_test_make::texts::rule_in;
use std::alloc::{AllocError, Global};
use std::test::Fail;

/// Whether these are the names, in this order.
fn are(names: &Vec<Name>, wanted: &[&str]) -> bool {
    if names.len() != wanted.len() {
        return false;
    }
    for (name, text) in names.iter().zip(wanted) {
        if name.text.as_str() != *text {
            return false;
        }
    }
    true
}

/// Texts, and their public names.
static NAMES: [(&[u8], &[&str]); 6] = [
    (b"theory T begin end", &[]),
    (
        b"theory T begin rule R: [ Fr(~k), P('a',k) ] --[ A('b') ]-> [ Q('a','c') ] end",
        &["a", "b", "c"],
    ),
    (
        b"theory T begin lemma l: \"Ex x #i. A('d',x)@i & not (x = 'e') & 'f' = x\" end",
        &["d", "e", "f"],
    ),
    (
        b"theory T begin lemma l: \"(All #i. A('a')@i ==> F) <=> (Ex #i. B('b')@i)\" end",
        &["a", "b"],
    ),
    (
        b"theory T begin lemma l: \"Ex #i. A('m')@i\" rule R: [ ] --[ A('n') ]-> [ ] end",
        &["n", "m"],
    ),
    // those of rules, of restrictions and of lemmas
    (
        b"theory T begin lemma l: \"Ex #i. A('a','b')@i\"
restriction r: \"All #i. A('b','c')@i ==> F\" rule R: [ ] --[ A('c','d') ]-> [ ] end",
        &["c", "d", "b", "a"],
    ),
];

fn name_cases() -> &'static [(&'static [u8], &'static [&'static str])] {
    &NAMES
}

#[test]
fn public_names_are_listed(rt: HostRuntime) -> Result<(), Fail> {
    let alloc = rt.alloc();
    for (text, wanted) in name_cases().iter() {
        let theory = read_theory(alloc, text)?.ok_or("read")?;
        assert!(rt; are(&constants(alloc, &theory)?, wanted), "{text:?}");
    }
    Ok(())
}

// The variables of the numbered rule.
const KEY: (Sort, u128) = (Sort::Fresh, 0);

const GIVEN: (Sort, u128) = (Sort::Msg, 1);

const AGENT: (Sort, u128) = (Sort::Pub, 2);

/// Fr(0) and !In1('c', 1)
fn numbered_premises(alloc: Global) -> Result<Vec<Fact>, AllocError> {
    let mut taken = Vec::new(alloc);
    taken.push(constant(alloc, "c")?)?;
    taken.push(variable(GIVEN.0, GIVEN.1))?;
    let mut made = Vec::new(alloc);
    made.push(linear(alloc, "Fr", variables(alloc, &[KEY])?)?)?;
    made.push(persistent(alloc, "In1", taken)?)?;
    Ok(made)
}

/// The facts of a rule that takes Fr(0) and !In1('c', 1), shows Made(2, 0) and gives Out1(1, 2).
fn numbered_facts(alloc: Global) -> Result<Facts, AllocError> {
    let shown = action(alloc, "Made", variables(alloc, &[AGENT, KEY])?)?;
    let actions = vec![in alloc; shown]?;
    let given = linear(alloc, "Out1", variables(alloc, &[GIVEN, AGENT])?)?;
    let conclusions = vec![in alloc; given]?;
    let premises = numbered_premises(alloc)?;
    Ok(Facts {
        premises,
        actions,
        conclusions,
    })
}

fn are_same_facts(left: &Vec<Fact>, right: &Vec<Fact>) -> bool {
    for (one, other) in left.iter().zip(right) {
        if one.symbol != other.symbol
            || one.persistent != other.persistent
            || !all_same(&one.args, &other.args)
        {
            return false;
        }
    }
    left.len() == right.len()
}

fn are_same_actions(left: &Vec<Action>, right: &Vec<Action>) -> bool {
    for (one, other) in left.iter().zip(right) {
        if one.symbol != other.symbol || !all_same(&one.args, &other.args) {
            return false;
        }
    }
    left.len() == right.len()
}

fn is_same_rule(left: &Rule, right: &Rule) -> bool {
    for (one, other) in left.variables.iter().zip(&right.variables) {
        if one.name != other.name || one.sort != other.sort {
            return false;
        }
    }
    left.name == right.name
        && left.variables.len() == right.variables.len()
        && are_same_facts(&left.facts.premises, &right.facts.premises)
        && are_same_actions(&left.facts.actions, &right.facts.actions)
        && are_same_facts(&left.facts.conclusions, &right.facts.conclusions)
}

#[test]
fn variables_are_numbered_as_they_are_first_seen(rt: HostRuntime) -> Result<(), Fail> {
    let alloc = rt.alloc();
    let written = rule_in(
        alloc,
        "Make",
        [b"Fr(k), !In1('c',x) ]", b"Made($a,~k) ]", b"Out1(x,a) ]"],
    )?;
    let made = numbered(alloc, &written)?;
    let declared = [("k", Sort::Fresh), ("x", Sort::Msg), ("a", Sort::Pub)];
    let wanted = rule(alloc, "Make", &declared, numbered_facts(alloc)?)?;
    assert!(rt; is_same_rule(&made, &wanted));
    Ok(())
}

#[test]
fn a_text_poses_its_rules_and_lemmas(rt: HostRuntime) -> Result<(), Fail> {
    let alloc = rt.alloc();
    let text = b"theory R begin
rule Make: [ Fr(~k) ] --[ A(~k), B('b') ]-> [ ]
lemma once: \"All x #i #j. A(x)@i & A(x)@j & not (x = 'a') & not (x = 'b') ==> #i = #j\"
end behind";
    let Read::Posed(problem) = posed_by(alloc, text)? else {
        return Err("nothing is posed".into());
    };
    assert_eq!(rt; problem.rules.len(), 1);
    assert!(rt; are(&problem.constants, &["b", "a"]));
    assert_eq!(rt; problem.lemmas.len(), 1);
    let lemma = problem.lemmas.first().ok_or("lemma")?;
    assert_eq!(rt; lemma.name, "once");
    assert_eq!(rt; &text[problem.behind_end..], b" behind".as_slice());
    Ok(())
}

/// Whether the restrictions have these names, in this order.
fn have_names(restrictions: &Vec<GuardedRestriction>, wanted: &[&str]) -> bool {
    if restrictions.len() != wanted.len() {
        return false;
    }
    for (restriction, name) in restrictions.iter().zip(wanted) {
        if restriction.name != *name {
            return false;
        }
    }
    true
}

#[test]
fn a_text_poses_its_restrictions(rt: HostRuntime) -> Result<(), Fail> {
    let alloc = rt.alloc();
    let text = b"theory R begin
lemma first [reuse]: \"T\"
restriction same: \"All x y #i. Eq(x, y)@i ==> x = y\"
lemma second [hide_lemma=first]: \"T\"
axiom other: \"All x #i. Neq(x, x)@i ==> F\"
end";
    let Read::Posed(problem) = posed_by(alloc, text)? else {
        return Err("nothing is posed".into());
    };
    assert_eq!(rt; problem.lemmas.len(), 2);
    assert!(rt; have_names(&problem.restrictions, &["same", "other"]));
    Ok(())
}

#[test]
fn lemmas_that_name_learning_are_marked(rt: HostRuntime) -> Result<(), Fail> {
    let alloc = rt.alloc();
    let text = b"theory R begin
lemma within: \"All x #i. A(x)@i ==> not (Ex #j. KU(x)@j & #j < #i)\"
lemma KU: \"All x #i. K(x)@i ==> F\"
end";
    let Read::Posed(problem) = posed_by(alloc, text)? else {
        return Err("nothing is posed".into());
    };
    let within = problem.lemmas.first().ok_or("lemma")?;
    let named = problem.lemmas.last().ok_or("lemma")?;
    assert_eq!(rt; within.name, "within");
    assert!(rt; within.marked);
    assert_eq!(rt; named.name, "KU");
    assert!(rt; !named.marked);
    Ok(())
}
