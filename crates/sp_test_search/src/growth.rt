// Proof trees, and how they are grown.

ghost use Rattle.std.specs.Prelude.{◌≡◌};
ghost use Rattle.sp_search.specs.Kinds.{case_count};
ghost use Rattle.sp_search.specs.NodeView.{node_at};

use sp_formula::formula::{Binder, Moment};
use sp_search::{Node, OpenLeaf, Ranked, Tree, choice, grown_tree, is_finished, steps};
use sp_step::moves::{Move, cases};
use sp_system::system::System;
use sp_term::term::Sort;
use sp_test_make::plain::{NO_FACTS, PlainFacts, PlainRule, PlainTerm, rules_of};
use sp_test_make::plain_systems::{
    EMPTY, PlainAtom, PlainFormula, PlainLeaf, PlainSystem, formula_of, system_of,
};
use sp_test_make::systems::system_of_one;
use sp_test_steps::examples::Parts;
use std::alloc::{AllocError, Global};
use std::test::Fail;

// the rule R with the action A('c')
static RULES: [PlainRule<'static>; 1] = [PlainRule {
    name: "R",
    variables: &[],
    facts: PlainFacts {
        actions: &[("A", &[PlainTerm::Public("c")])],
        ..NO_FACTS
    },
}];

fn plain_rules() -> &'static [PlainRule<'static>] {
    &RULES
}

// there are x and i with A(x) at i, and not x = x
const REFUTED: PlainFormula<'static> = PlainFormula::Exists(
    &[Binder::Message(Sort::Msg), Binder::Time],
    &[PlainAtom::Acts("A", &[PlainLeaf::Bound(0)], Moment::Bound(0))],
    &PlainFormula::Fails(PlainAtom::Same(PlainLeaf::Bound(0), PlainLeaf::Bound(0))),
);

// A('c') at the time 0
const WANTED: PlainFormula<'static> = PlainFormula::Holds(PlainAtom::Acts(
    "A",
    &[PlainLeaf::Public("c")],
    Moment::Free(0),
));

fn wanted() -> PlainFormula<'static> {
    WANTED
}

// the system of the formula, whose next number is 1
fn of_one(alloc: Global, formula: &PlainFormula) -> Result<System, AllocError> {
    system_of_one(alloc, formula_of(alloc, formula)?, 1)
}

// the rule, where the log that is looked for makes the formula true
fn looked_for(alloc: Global, sought: &PlainFormula) -> Result<Parts, AllocError> {
    let rules = rules_of(alloc, plain_rules())?;
    Parts::new(alloc, rules, formula_of(alloc, sought)?)
}

// the action of the first formula
fn action() -> Ranked {
    Ranked {
        rank: 5,
        chosen: Move::Action(0),
    }
}

// a node without cases
fn alone(alloc: Global, node: Node) -> Result<Tree, AllocError>
    requires { case_count (node_at node) ≡ 0 }
{
    let mut nodes = Vec::new(alloc);
    nodes.push(node)?;
    Ok(Tree { nodes })
}

fn open_leaf(alloc: Global, chosen: Option<Ranked>) -> Result<Tree, AllocError> {
    let leaf = OpenLeaf {
        system: of_one(alloc, &wanted())?,
        choice: chosen,
        depth: 1,
    };
    alone(alloc, Node::Open(Box::new(alloc, leaf)?))
}

fn case(alloc: Global, name: &str, tree: Tree) -> Result<(String, Tree), AllocError> {
    let name = String::from_str(alloc, name)?;
    Ok((name, tree))
}

// the move over these trees, by the names of its cases
fn over_all(alloc: Global, chosen: Move, cases: Vec<(String, Tree)>) -> Result<Tree, AllocError> {
    let mut names = Vec::new(alloc);
    let mut below = Vec::new(alloc);
    for (name, tree) in cases {
        let Tree { mut nodes } = tree;
        names.push(name)?;
        below.append(&mut nodes)?;
    }
    let mut nodes = Vec::new(alloc);
    nodes.push(Node::Inner(chosen, names))?;
    nodes.append(&mut below)?;
    Ok(Tree { nodes })
}

fn contradiction(alloc: Global) -> Result<Tree, AllocError> {
    alone(alloc, Node::Inner(Move::Contradiction, Vec::new(alloc)))
}

// a simplification, below it a contradiction and two open leaves
fn three_cases(alloc: Global) -> Result<Tree, AllocError> {
    let mut cases = Vec::new(alloc);
    cases.push(case(alloc, "a", contradiction(alloc)?)?)?;
    for (name, chosen) in [("b", Some(action())), ("c", None)] {
        cases.push(case(alloc, name, open_leaf(alloc, chosen)?)?)?;
    }
    over_all(alloc, Move::Simplify, cases)
}

#[test]
fn trees_are_counted(rt: HostRuntime) -> Result<(), Fail> {
    let alloc = rt.alloc();
    let open = three_cases(alloc)?;
    assert_eq!(rt; (steps(&open), is_finished(&open)), (2, false));
    let proved = contradiction(alloc)?;
    assert_eq!(rt; (steps(&proved), is_finished(&proved)), (1, true));
    Ok(())
}

// What a grown tree is: how many steps it has, whether it is finished, and how many entries its log has.
type Shape = (u64, bool, Option<usize>);

// the tree of the system with this formula, grown where the log that is looked for makes the other one true
fn grown(
    alloc: Global,
    root: &PlainFormula,
    sought: &PlainFormula,
    budget: u64,
) -> Result<Shape, AllocError> {
    let root = of_one(alloc, root)?;
    let parts = looked_for(alloc, sought)?;
    let tree = grown_tree(alloc, &parts.context(), root, budget)?;
    let entries = match tree.found_log() {
        Some(log) => Some(log.entries.len()),
        None => None,
    };
    Ok((steps(&tree), is_finished(&tree), entries))
}

const TRUTH: PlainFormula<'static> = PlainFormula::Truth;

fn truth() -> PlainFormula<'static> {
    TRUTH
}

const FALSITY: PlainFormula<'static> = PlainFormula::Falsity;

fn falsity() -> PlainFormula<'static> {
    FALSITY
}

// a formula, what is sought, the number of steps, and what the tree is: a proof, or one with a log
static GROWN: [(PlainFormula<'static>, PlainFormula<'static>, u64, Shape); 8] = [
    (REFUTED, TRUTH, 0, (0, false, None)),
    (REFUTED, TRUTH, 1, (1, false, None)),
    (REFUTED, TRUTH, 2, (2, true, None)),
    (REFUTED, TRUTH, 3, (2, true, None)),
    (WANTED, TRUTH, 1, (1, false, None)),
    (WANTED, TRUTH, 2, (2, false, Some(1))),
    (WANTED, TRUTH, 5, (2, false, Some(1))),
    (WANTED, FALSITY, 5, (5, false, None)),
];

fn grown_cases() -> &'static [(PlainFormula<'static>, PlainFormula<'static>, u64, Shape)] {
    &GROWN
}

#[test]
fn trees_are_grown(rt: HostRuntime) -> Result<(), Fail> {
    let alloc = rt.alloc();
    for (i, (root, sought, budget, expected)) in grown_cases().iter().enumerate() {
        let found = grown(alloc, root, sought, *budget)?;
        assert_eq!(rt; found, *expected, "{i}");
    }
    let root = of_one(alloc, &wanted())?;
    let parts = looked_for(alloc, &truth())?;
    assert_eq!(rt; choice(alloc, &parts.context(), &root)?, Some(action()));
    Ok(())
}

// a system in which nothing happens, and nothing more than that
static CLOSED: PlainSystem<'static> = PlainSystem {
    closed: true,
    ..EMPTY
};

fn closed() -> &'static PlainSystem<'static> {
    &CLOSED
}

fn empty() -> PlainSystem<'static> {
    EMPTY
}

// The log without entries is what is looked for, or it isn't: where nothing more happens the search is at its end then, and else something may.
#[test]
fn searches_end_where_nothing_is_left(rt: HostRuntime) -> Result<(), Fail> {
    let alloc = rt.alloc();
    for (sought, plain, rank, chosen) in [
        (truth(), closed(), 3, Move::Solved),
        (falsity(), closed(), 16, Move::Finish),
        (falsity(), &empty(), 14, Move::MoreEvents),
    ] {
        let parts = looked_for(alloc, &sought)?;
        let system = system_of(alloc, plain)?;
        let found = choice(alloc, &parts.context(), &system)?;
        assert_eq!(rt; found, Some(Ranked { rank, chosen }));
    }
    let parts = looked_for(alloc, &falsity())?;
    let system = system_of(alloc, closed())?;
    let found = cases(alloc, &parts.context(), &system, &Move::Finish)?;
    assert_eq!(rt; found.map(|cases| cases.len()), Some(0));
    Ok(())
}
