// Terms, facts and formulas in memory: put in for variables, copied, told apart, unified.

use sp_fact::fact::Facts;
use sp_formula::formula::{Binder, Formula, Moment};
use sp_formula::same::same_formula;
use sp_term::subst::{Subst, apply, apply_all};
use sp_term::term::{Sort, Term, Variable, same};
use sp_test_make::plain::{
    NO_FACTS, PlainFact, PlainFacts, PlainTerm, facts_of, term_of, terms_of,
};
use sp_test_make::plain_systems::{PlainAtom, PlainFormula, PlainLeaf, formula_of};
use sp_unify::unify::mgu;
use std::alloc::{AllocError, Global};
use std::test::Fail;

const FIRST: Variable = Variable {
    sort: Sort::Msg,
    number: 0,
};

const SECOND: Variable = Variable {
    sort: Sort::Msg,
    number: 1,
};

const THIRD: Variable = Variable {
    sort: Sort::Msg,
    number: 2,
};

// what is put in for one variable
fn binding(alloc: Global, variable: Variable, term: Term) -> Result<Subst, AllocError> {
    let mut made = Subst::new(alloc);
    made.push(variable, term)?;
    Ok(made)
}

// the messages x and y, a fresh variable f, a public one p, the public name 'c' and the fresh name ~n7
const X: PlainTerm<'static> = PlainTerm::Variable(Sort::Msg, 0);

const Y: PlainTerm<'static> = PlainTerm::Variable(Sort::Msg, 1);

const F: PlainTerm<'static> = PlainTerm::Variable(Sort::Fresh, 2);

const P: PlainTerm<'static> = PlainTerm::Variable(Sort::Pub, 3);

const C: PlainTerm<'static> = PlainTerm::Public("c");

const N: PlainTerm<'static> = PlainTerm::FreshName(7);

fn is_wanted(alloc: Global, made: &Term, wanted: &PlainTerm) -> Result<bool, AllocError> {
    let wanted = term_of(alloc, wanted)?;
    Ok(same(made, &wanted))
}

// ~n7 is put in for the first variable, and the message of number 2 for the second one
fn both(alloc: Global) -> Result<Subst, AllocError> {
    let first = binding(alloc, FIRST, Term::FreshName(7))?;
    let second = binding(alloc, SECOND, Term::Var(THIRD))?;
    first.then(alloc, second)
}

// what is put into the terms
fn put_in(alloc: Global, given: &[PlainTerm]) -> Result<Vec<Term>, AllocError> {
    let given = terms_of(alloc, given)?;
    let both = both(alloc)?;
    apply_all(alloc, &both, &given)
}

const GIVEN: PlainTerm<'static> = PlainTerm::Over("pair", &[X, Y]);

static PUT_IN: PlainTerm<'static> = PlainTerm::Over(
    "pair",
    &[N, PlainTerm::Variable(Sort::Msg, 2)],
);

fn plain_put_in() -> &'static PlainTerm<'static> {
    &PUT_IN
}

fn pair(alloc: Global) -> Result<Term, AllocError> {
    term_of(alloc, &GIVEN)
}

fn is_put_in(alloc: Global, made: &Term) -> Result<bool, AllocError> {
    is_wanted(alloc, made, plain_put_in())
}

fn first_is_put_in(alloc: Global) -> Result<bool, Fail> {
    let all = put_in(alloc, &[GIVEN])?;
    let first = all.first().ok_or("made")?;
    let found = is_put_in(alloc, first)?;
    Ok(found)
}

fn first_is_bound(alloc: Global) -> Result<bool, Fail> {
    let both = both(alloc)?;
    let bound = both.get(FIRST).ok_or("bound")?;
    Ok(same(bound, &Term::FreshName(7)))
}

fn with_both(alloc: Global, given: &Term) -> Result<Term, AllocError> {
    let both = both(alloc)?;
    apply(alloc, &both, given)
}

#[test]
fn terms_are_put_in(rt: HostRuntime) -> Result<(), Fail> {
    let alloc = rt.alloc();
    assert!(rt; first_is_put_in(alloc)?);
    assert!(rt; first_is_bound(alloc)?);
    let given = pair(alloc)?;
    let made = with_both(alloc, &given)?;
    assert!(rt; !same(&made, &given));
    Ok(())
}

#[test]
fn terms_are_copied(rt: HostRuntime) -> Result<(), Fail> {
    let alloc = rt.alloc();
    let given = pair(alloc)?;
    let made = with_both(alloc, &given)?;
    assert!(rt; is_put_in(alloc, &made)?);
    let copied = made.clone()?;
    assert!(rt; is_put_in(alloc, &copied)?);
    Ok(())
}

// Two terms, a third one, and what that becomes under their unifier.
static UNIFIED: [(
    PlainTerm<'static>,
    PlainTerm<'static>,
    PlainTerm<'static>,
    Option<PlainTerm<'static>>,
); 7] = [
    (
        PlainTerm::Over("pair", &[X, Y]),
        PlainTerm::Over("pair", &[Y, F]),
        X,
        Some(F),
    ),
    (Y, X, Y, Some(X)),
    (P, C, P, Some(C)),
    (F, N, F, Some(N)),
    (F, P, X, None),
    (F, C, X, None),
    (X, PlainTerm::Over("pair", &[X, Y]), X, None),
];

fn unified_cases() -> &'static [(
    PlainTerm<'static>,
    PlainTerm<'static>,
    PlainTerm<'static>,
    Option<PlainTerm<'static>>,
)] {
    &UNIFIED
}

// what the third term becomes under the unifier of the first two
fn unified(
    alloc: Global,
    left: &PlainTerm,
    right: &PlainTerm,
    asked: &PlainTerm,
) -> Result<Option<Term>, AllocError> {
    let left = term_of(alloc, left)?;
    let right = term_of(alloc, right)?;
    let pairs = vec![in alloc; (left, right)]?;
    let Some(subst) = mgu(alloc, &pairs)? else {
        return Ok(None);
    };
    let asked = term_of(alloc, asked)?;
    let made = apply(alloc, &subst, &asked)?;
    Ok(Some(made))
}

#[test]
fn terms_are_unified(rt: HostRuntime) -> Result<(), Fail> {
    let alloc = rt.alloc();
    for (i, (left, right, asked, wanted)) in unified_cases().iter().enumerate() {
        match (unified(alloc, left, right, asked)?, wanted) {
            (None, None) => {}
            (Some(made), Some(wanted)) => assert!(rt; is_wanted(alloc, &made, wanted)?, "{i}"),
            _ => assert!(rt; false, "{i}"),
        }
    }
    Ok(())
}

// the premise !F(x) and the action A(x)
static OF_X: PlainFacts<'static> = PlainFacts {
    premises: &[PlainFact::Persistent("F", &[X])],
    actions: &[("A", &[X])],
    ..NO_FACTS
};

fn plain_of_x() -> &'static PlainFacts<'static> {
    &OF_X
}

fn of_x(alloc: Global) -> Result<Facts, AllocError> {
    facts_of(alloc, plain_of_x())
}

fn are_about(facts: &Facts, term: &Term) -> bool {
    match (facts.premises.first(), facts.actions.first()) {
        (Some(premise), Some(action)) => match (premise.args.first(), action.args.first()) {
            (Some(taken), Some(shown)) => {
                premise.persistent && same(taken, term) && same(shown, term)
            }
            _ => false,
        },
        _ => false,
    }
}

#[test]
fn facts_are_copied_and_changed(rt: HostRuntime) -> Result<(), Fail> {
    let alloc = rt.alloc();
    let given = of_x(alloc)?;
    let copied = given.clone()?;
    assert!(rt; are_about(&copied, &Term::Var(FIRST)));
    let subst = binding(alloc, FIRST, Term::FreshName(7))?;
    let changed = given.changed(alloc, &subst)?;
    assert!(rt; are_about(&changed, &Term::FreshName(7)));
    let all = vec![in alloc; Term::Var(FIRST)]?.clone()?;
    assert_eq!(rt; all.len(), 1);
    Ok(())
}

// both: for all x with A(x) at 2, falsity; and: 3 is before 2, or truth
const NESTED: PlainFormula<'static> = PlainFormula::AllOf(&[
    PlainFormula::ForAll(
        &[Binder::Message(Sort::Msg)],
        &[PlainAtom::Acts("A", &[PlainLeaf::Bound(0)], Moment::Free(2))],
        &PlainFormula::Falsity,
    ),
    PlainFormula::OneOf(&[
        PlainFormula::Holds(PlainAtom::Before(Moment::Free(3), Moment::Free(2))),
        PlainFormula::Truth,
    ]),
]);

// the same, with 1 in place of 2
static NESTED_AT_1: PlainFormula<'static> = PlainFormula::AllOf(&[
    PlainFormula::ForAll(
        &[Binder::Message(Sort::Msg)],
        &[PlainAtom::Acts("A", &[PlainLeaf::Bound(0)], Moment::Free(1))],
        &PlainFormula::Falsity,
    ),
    PlainFormula::OneOf(&[
        PlainFormula::Holds(PlainAtom::Before(Moment::Free(3), Moment::Free(1))),
        PlainFormula::Truth,
    ]),
]);

// A of the innermost message happens at 2, and of the one around it
const INNER: PlainAtom<'static> = PlainAtom::Acts("A", &[PlainLeaf::Bound(0)], Moment::Free(2));

const OUTER: PlainAtom<'static> = PlainAtom::Acts("A", &[PlainLeaf::Bound(1)], Moment::Free(2));

// there is a message of the sort with that action
const SOME_PUBLIC: PlainFormula<'static> = PlainFormula::Exists(
    &[Binder::Message(Sort::Pub)],
    &[INNER],
    &PlainFormula::Truth,
);

const SOME_FRESH: PlainFormula<'static> = PlainFormula::Exists(
    &[Binder::Message(Sort::Fresh)],
    &[INNER],
    &PlainFormula::Truth,
);

const SOME_OUTER: PlainFormula<'static> = PlainFormula::Exists(
    &[Binder::Message(Sort::Pub)],
    &[OUTER],
    &PlainFormula::Truth,
);

// two formulas, and whether a copy of the first is the second
static TOLD_APART: [(PlainFormula<'static>, PlainFormula<'static>, bool); 5] = [
    (SOME_PUBLIC, SOME_PUBLIC, true),
    (SOME_PUBLIC, SOME_FRESH, false),
    (SOME_PUBLIC, SOME_OUTER, false),
    (SOME_PUBLIC, NESTED, false),
    (NESTED, NESTED, true),
];

fn told_apart() -> &'static [(PlainFormula<'static>, PlainFormula<'static>, bool)] {
    &TOLD_APART
}

fn copy_of(alloc: Global, given: &PlainFormula) -> Result<Formula, AllocError> {
    let given = formula_of(alloc, given)?;
    given.clone()
}

fn is_formula(alloc: Global, made: &Formula, wanted: &PlainFormula) -> Result<bool, AllocError> {
    let wanted = formula_of(alloc, wanted)?;
    Ok(same_formula(made, &wanted))
}

fn copy_is(alloc: Global, left: &PlainFormula, right: &PlainFormula) -> Result<bool, AllocError> {
    let copied = copy_of(alloc, left)?;
    is_formula(alloc, &copied, right)
}

fn nested() -> PlainFormula<'static> {
    NESTED
}

fn nested_at_1() -> &'static PlainFormula<'static> {
    &NESTED_AT_1
}

// 1 is put in for 2
fn with_1_for_2(alloc: Global, given: &PlainFormula) -> Result<Formula, AllocError> {
    let given = formula_of(alloc, given)?;
    let none = Subst::new(alloc);
    given.changed(alloc, &none, 1, 2)
}

fn nested_is_changed(alloc: Global) -> Result<bool, AllocError> {
    let changed = with_1_for_2(alloc, &nested())?;
    is_formula(alloc, &changed, nested_at_1())
}

#[test]
fn formulas_are_changed_and_told_apart(rt: HostRuntime) -> Result<(), Fail> {
    let alloc = rt.alloc();
    for (i, (left, right, wanted)) in told_apart().iter().enumerate() {
        let found = copy_is(alloc, left, right)?;
        assert_eq!(rt; found, *wanted, "{i}");
    }
    assert!(rt; nested_is_changed(alloc)?);
    Ok(())
}
