// Ground terms, and what is made of them.

use sp_fact::ground_fact::{GroundAction, GroundFact};
use sp_term::term::{Term, all_same, same};
use sp_test_make::ground::{fact_of, shown};
use sp_test_make::values::{ground_in, grounds_in};
use std::alloc::Global;
use std::test::Fail;

// !F(fst(<'a', ~n1>))
fn fact(alloc: Global) -> Result<GroundFact, Fail> {
    let term = ground_in(alloc, "fst(<'a', ~n1>)")?;
    Ok(fact_of(alloc, "F", true, term)?)
}

// A(fst(<'a', ~n1>), ~n1)
fn action(alloc: Global) -> Result<GroundAction, Fail> {
    let args = grounds_in(alloc, &["fst(<'a', ~n1>)", "~n1"])?;
    Ok(shown(alloc, "A", args)?)
}

#[test]
fn copies_are_the_same(rt: HostRuntime) -> Result<(), Fail> {
    let alloc = rt.alloc();
    let term = ground_in(alloc, "fst(<'a', ~n1>)")?;
    let twin = term.clone()?;
    assert!(rt; same(&twin, &term) && !same(&twin, &Term::FreshName(1)));
    let fact = fact(alloc)?;
    let twin = fact.clone()?;
    assert!(rt; twin.persistent && all_same(&twin.args, &fact.args));
    let action = action(alloc)?;
    let twin = action.clone()?;
    assert!(rt; all_same(&twin.args, &action.args) && !all_same(&twin.args, &fact.args));
    Ok(())
}
