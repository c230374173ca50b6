// Proof trees as they are read, judged.

use sp_check::{Clause, Judgement, Node, Skeleton, Step, has_open, judge, steps};
use sp_formula::formula::{Binder, Moment};
use sp_learn::log::{Entry, Log};
use sp_step::context::Context;
use sp_step::moves::Move;
use sp_term::term::Sort;
use sp_test_make::plain::{PlainFact, PlainFacts, PlainRule, PlainTerm, rules_of};
use sp_test_make::plain_systems::{PlainAtom, PlainFormula, PlainLeaf, formula_of};
use sp_test_make::systems::system_of_one;
use sp_test_steps::examples::Parts;
use std::alloc::{AllocError, Global};
use std::test::Fail;

// [ Fr(~k) ] --[ A(~k) ]-> [ ]
const MAKING: PlainFacts<'static> = PlainFacts {
    premises: &[PlainFact::Linear("Fr", &[PlainTerm::Variable(Sort::Fresh, 0)])],
    actions: &[("A", &[PlainTerm::Variable(Sort::Fresh, 0)])],
    conclusions: &[],
};

const MAKE: PlainRule<'static> = PlainRule {
    name: "Make",
    variables: &[("k", Sort::Fresh)],
    facts: MAKING,
};

const AGAIN: PlainRule<'static> = PlainRule {
    name: "Again",
    variables: &[("k", Sort::Fresh)],
    facts: MAKING,
};

static MAKE_ALONE: [PlainRule<'static>; 1] = [MAKE];

fn make_alone() -> &'static [PlainRule<'static>] {
    &MAKE_ALONE
}

static MAKE_AND_AGAIN: [PlainRule<'static>; 2] = [MAKE, AGAIN];

fn make_and_again() -> &'static [PlainRule<'static>] {
    &MAKE_AND_AGAIN
}

// A doesn't come once: there are x, i and j with A(x) at i and at j, and i isn't j
static NOT_ONCE: PlainFormula<'static> = PlainFormula::Exists(
    &[Binder::Message(Sort::Msg), Binder::Time, Binder::Time],
    &[
        PlainAtom::Acts("A", &[PlainLeaf::Bound(0)], Moment::Bound(1)),
        PlainAtom::Acts("A", &[PlainLeaf::Bound(0)], Moment::Bound(0)),
    ],
    &PlainFormula::Fails(PlainAtom::SameTime(Moment::Bound(1), Moment::Bound(0))),
);

fn not_once() -> &'static PlainFormula<'static> {
    &NOT_ONCE
}

// A comes
static SOME: PlainFormula<'static> = PlainFormula::Exists(
    &[Binder::Message(Sort::Msg), Binder::Time],
    &[PlainAtom::Acts("A", &[PlainLeaf::Bound(0)], Moment::Bound(0))],
    &PlainFormula::Truth,
);

fn some_comes() -> &'static PlainFormula<'static> {
    &SOME
}

// the search for this formula by these rules
fn searched(
    alloc: Global,
    rules: &[PlainRule],
    sought: &PlainFormula,
) -> Result<Parts, AllocError> {
    let rules = rules_of(alloc, rules)?;
    Parts::new(alloc, rules, formula_of(alloc, sought)?)
}

// the names of the rules in a log, or what else is done
fn told_log(alloc: Global, log: &Log) -> Result<String, AllocError> {
    let mut out = String::from_str(alloc, "found")?;
    for entry in &log.entries {
        out.push_str(" ")?;
        match entry {
            Entry::Step(step) => out.push_str(step.rule.text.as_str())?,
            Entry::Send(_) => out.push_str("send")?,
            Entry::Learn(_, _) => out.push_str("learn")?,
        }
    }
    Ok(out)
}

fn told(alloc: Global, judgement: Judgement) -> Result<String, AllocError> {
    match judgement {
        Judgement::Rejected(step, Clause::Move) => format!(in alloc; "{step}: move"),
        Judgement::Rejected(step, Clause::Instance) => format!(in alloc; "{step}: instance"),
        Judgement::Rejected(step, Clause::Cases) => format!(in alloc; "{step}: cases"),
        Judgement::Found(log) => told_log(alloc, &log),
        Judgement::Finished => String::from_str(alloc, "finished"),
        Judgement::Incomplete => String::from_str(alloc, "incomplete"),
    }
}

// what is judged of the proof, whose root has this formula
fn judged(
    alloc: Global,
    context: &Context,
    root: &PlainFormula,
    proof: &Skeleton,
) -> Result<String, AllocError> {
    let root = system_of_one(alloc, formula_of(alloc, root)?, 0)?;
    told(alloc, judge(alloc, context, root, proof)?)
}

// what is done at a node: a move, or a text that names none
#[derive(Clone, Copy)]
enum Done {
    Simplify,
    Action(u128),
    Contradiction,
    Solved,
    Unproved,
    Induction,
    Unknown(&'static [u8]),
}

impl Done {
    fn step(self, alloc: Global) -> Result<Step, AllocError> {
        match self {
            Done::Simplify => Ok(Step::Known(Move::Simplify)),
            Done::Action(place) => Ok(Step::Known(Move::Action(place))),
            Done::Contradiction => Ok(Step::Known(Move::Contradiction)),
            Done::Solved => Ok(Step::Known(Move::Solved)),
            Done::Unproved => Ok(Step::Known(Move::Unproved)),
            Done::Induction => Ok(Step::Known(Move::Induction)),
            Done::Unknown(text) => Ok(Step::Unknown(text.to_vec(alloc)?)),
        }
    }
}

// a node with cases of these names
fn node(alloc: Global, done: Done, names: &[&str]) -> Result<Node, AllocError> {
    let mut cases = Vec::with_capacity(alloc, names.len())?;
    for name in names {
        cases.push(String::from_str(alloc, name)?)?;
    }
    let step = done.step(alloc)?;
    Ok(Node { step, cases })
}

// what is done, with the names of the cases of each, in preorder
type Nodes = &'static [(Done, &'static [&'static str])];

fn tree(alloc: Global, given: &[(Done, &[&str])]) -> Result<Option<Skeleton>, AllocError> {
    let mut nodes = Vec::with_capacity(alloc, given.len())?;
    for (done, names) in given {
        nodes.push(node(alloc, *done, *names)?)?;
    }
    Ok(Skeleton::new(nodes))
}

const SIMPLIFY: (Done, &[&str]) = (Done::Simplify, &[""]);

// looks for the event of the action at the position, which Make has
const FIRST_MADE: (Done, &[&str]) = (Done::Action(0), &["Make"]);

const SECOND_MADE: (Done, &[&str]) = (Done::Action(1), &["Make"]);

const CONTRADICTION: (Done, &[&str]) = (Done::Contradiction, &[]);

const SOLVED: (Done, &[&str]) = (Done::Solved, &[]);

const UNPROVED: (Done, &[&str]) = (Done::Unproved, &[]);

// Proofs that A comes once, how many steps each has, and what comes of it: whole ones; and those in which a case is left out, has
// another name, or is one too many.
static PROOFS: [(Nodes, u64, &str); 8] = [
    (
        &[SIMPLIFY, FIRST_MADE, FIRST_MADE, CONTRADICTION],
        4,
        "finished",
    ),
    (
        &[SIMPLIFY, FIRST_MADE, FIRST_MADE, UNPROVED],
        3,
        "incomplete",
    ),
    (
        &[SIMPLIFY, FIRST_MADE, SECOND_MADE, CONTRADICTION],
        4,
        "3: instance",
    ),
    (
        &[SIMPLIFY, FIRST_MADE, FIRST_MADE, (Done::Induction, &[])],
        4,
        "4: instance",
    ),
    (
        &[
            SIMPLIFY,
            FIRST_MADE,
            FIRST_MADE,
            (Done::Unknown(b"contradict"), &[]),
        ],
        4,
        "4: move",
    ),
    (
        &[SIMPLIFY, FIRST_MADE, (Done::Action(0), &[])],
        3,
        "3: cases",
    ),
    (
        &[SIMPLIFY, (Done::Action(0), &["Made"]), UNPROVED],
        2,
        "2: cases",
    ),
    (&[(Done::Unproved, &[""]), CONTRADICTION], 1, "1: cases"),
];

fn proofs() -> &'static [(Nodes, u64, &'static str)] {
    &PROOFS
}

#[test]
fn proofs_are_judged(rt: HostRuntime) -> Result<(), Fail> {
    let alloc = rt.alloc();
    let parts = searched(alloc, make_alone(), not_once())?;
    for (i, (nodes, count, wanted)) in proofs().iter().enumerate() {
        let proof = tree(alloc, *nodes)?.ok_or("tree")?;
        let found = judged(alloc, &parts.context(), not_once(), &proof)?;
        assert_eq!(rt; found.as_str(), *wanted, "{i}");
        assert_eq!(rt; steps(&proof), *count, "{i}");
    }
    Ok(())
}

// looks for the event of A, which Make and Again have
const EITHER_MADE: (Done, &[&str]) = (Done::Action(0), &["Make", "Again"]);

// The search for A, which ends below Make and below Again; whether a leaf is open; and what comes of it.
// `Make` and `Again` both do A: the search may end at either, with a log of that rule alone.
static LOGS: [(Nodes, bool, &str); 5] = [
    (
        &[SIMPLIFY, EITHER_MADE, SOLVED, SOLVED],
        false,
        "found Make",
    ),
    (
        &[SIMPLIFY, EITHER_MADE, UNPROVED, SOLVED],
        true,
        "found Again",
    ),
    (
        &[SIMPLIFY, EITHER_MADE, SOLVED, UNPROVED],
        true,
        "found Make",
    ),
    (
        &[SIMPLIFY, EITHER_MADE, UNPROVED, UNPROVED],
        true,
        "incomplete",
    ),
    (
        &[SIMPLIFY, EITHER_MADE, SOLVED, CONTRADICTION],
        false,
        "4: instance",
    ),
];

fn logs() -> &'static [(Nodes, bool, &'static str)] {
    &LOGS
}

#[test]
fn first_logs_are_given(rt: HostRuntime) -> Result<(), Fail> {
    let alloc = rt.alloc();
    let parts = searched(alloc, make_and_again(), some_comes())?;
    for (i, (nodes, is_open, wanted)) in logs().iter().enumerate() {
        let proof = tree(alloc, *nodes)?.ok_or("tree")?;
        let found = judged(alloc, &parts.context(), some_comes(), &proof)?;
        assert_eq!(rt; found.as_str(), *wanted, "{i}");
        assert_eq!(rt; has_open(&proof), *is_open, "{i}");
    }
    Ok(())
}

// a case where the search ends
static LATE: [(Done, &[&str]); 4] = [SIMPLIFY, FIRST_MADE, (Done::Solved, &[""]), UNPROVED];

fn late() -> &'static [(Done, &'static [&'static str])] {
    &LATE
}

// Without an event there is no log in which A comes; and where the search ends there is no case.
#[test]
fn other_ends_are_rejected(rt: HostRuntime) -> Result<(), Fail> {
    let alloc = rt.alloc();
    let parts = searched(alloc, make_alone(), some_comes())?;
    let early = Skeleton::leaf(alloc, Step::Known(Move::Solved))?;
    let found = judged(alloc, &parts.context(), some_comes(), &early)?;
    assert_eq!(rt; found.as_str(), "1: instance");
    let late = tree(alloc, late())?.ok_or("tree")?;
    let found = judged(alloc, &parts.context(), some_comes(), &late)?;
    assert_eq!(rt; found.as_str(), "3: cases");
    Ok(())
}

// Nodes, and whether they are one tree: where each case has its nodes, and none are left.
static TREES: [(Nodes, bool); 6] = [
    (&[TWO_CASES, UNPROVED, UNPROVED], true),
    (&[TWO_CASES, UNPROVED], false),
    (&[TWO_CASES, UNPROVED, UNPROVED, UNPROVED], false),
    (&[NO_CASES], true),
    (&[NO_CASES, UNPROVED], false),
    (&[], false),
];

fn trees() -> &'static [(Nodes, bool)] {
    &TREES
}

const TWO_CASES: (Done, &[&str]) = (Done::Simplify, &["a", "b"]);

const NO_CASES: (Done, &[&str]) = (Done::Simplify, &[]);

#[test]
fn nodes_are_one_tree(rt: HostRuntime) -> Result<(), Fail> {
    let alloc = rt.alloc();
    for (i, (nodes, wanted)) in trees().iter().enumerate() {
        let found = tree(alloc, *nodes)?;
        assert_eq!(rt; found.is_some(), *wanted, "{i}");
    }
    Ok(())
}
