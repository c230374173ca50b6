// Normal forms, instances, and what terms are over.

use crate::texts::{term_text, terms_text};
use sp_fact::fact::{Fact, Facts};
use sp_fact::ground_fact::GroundFacts;
use sp_fact::signature::{Equation, Signature};
use sp_norm::instance::{Valuing, facts_value, value, variable_value};
use sp_norm::normal::{normal, normal_facts};
use sp_norm::over::{are_over, has_public, has_symbol, is_over, is_value};
use sp_norm::step::normal_step;
use sp_show::step::step_line;
use sp_term::found::matches;
use sp_term::subst::Values;
use sp_term::term::{Name, Sort, Variable, has_sort};
use sp_test_make::facts::{action, persistent};
use sp_test_make::ground::{given, public, use_rule};
use sp_test_make::terms::variables;
use sp_test_make::values::{ground_in, grounds_in};
use std::alloc::{AllocError, Global};
use std::test::Fail;

/// The second part of a pair.
const SECOND: &str = "snd(<'a', ~n7>)";

fn message(number: u128) -> Variable {
    Variable {
        sort: Sort::Msg,
        number,
    }
}

// The text of the normal form of the term of a text.
fn normal_text(alloc: Global, equations: &Vec<Equation>, text: &str) -> Result<String, Fail> {
    let term = ground_in(alloc, text)?;
    let made = normal(alloc, equations, &term)?;
    Ok(term_text(alloc, &made)?)
}

// The line of the normal form of the use of R with this value for x.
fn normal_line(alloc: Global, equations: &Vec<Equation>, text: &str) -> Result<String, Fail> {
    let value = ground_in(alloc, text)?;
    let mut values = Vec::new(alloc);
    values.push(given(alloc, "x", value)?)?;
    let step = use_rule(alloc, "R", values)?;
    let made = normal_step(alloc, equations, &step)?;
    Ok(step_line(alloc, &made)?)
}

#[test]
fn projections_give_the_parts(rt: HostRuntime) -> Result<(), Fail> {
    let alloc = rt.alloc();
    let equations = Signature::pairs(alloc)?.equations;
    for (term, parts) in [(SECOND, "~n7"), ("<'a', ~n7>", "<'a', ~n7>")] {
        let made = normal_text(alloc, &equations, term)?;
        assert_eq!(rt; made.as_str(), parts);
    }
    let line = normal_line(alloc, &equations, SECOND)?;
    assert_eq!(rt; line.as_str(), "rule R: x = ~n7");
    Ok(())
}

// The values of the variables of a pattern, which make it the term of a text.
fn values_of(alloc: Global, equation: &Equation, text: &str) -> Result<Option<Values>, Fail> {
    let term = ground_in(alloc, text)?;
    Ok(matches(alloc, &equation.left, &term)?)
}

// Whether a public name is of pub and not of fresh, and what stands for a variable of fresh that has no value is of fresh.
fn sorts_fit(alloc: Global) -> Result<bool, AllocError> {
    let constant = public(alloc, "a")?;
    let unbound = Variable {
        sort: Sort::Fresh,
        number: 3,
    };
    let made = variable_value(alloc, &Values::new(alloc), unbound)?;
    let fits = has_sort(Sort::Pub, &constant) && !has_sort(Sort::Fresh, &constant);
    Ok(fits && has_sort(Sort::Fresh, &made))
}

#[test]
fn patterns_are_matched_by_sorts(rt: HostRuntime) -> Result<(), Fail> {
    let alloc = rt.alloc();
    let equations = Signature::pairs(alloc)?.equations;
    assert_eq!(rt; equations.len(), 2);
    let is_none = values_of(alloc, &equations[0], SECOND)?.is_none();
    assert!(rt; is_none);
    let found = values_of(alloc, &equations[1], SECOND)?.ok_or("no match")?;
    let made = value(alloc, &found, &equations[1].left)?;
    assert_eq!(rt; term_text(alloc, &made)?.as_str(), SECOND);
    let bound = found.get(message(1)).ok_or("no value")?;
    assert_eq!(rt; term_text(alloc, bound)?.as_str(), "~n7");
    assert!(rt; sorts_fit(alloc)?);
    Ok(())
}

// !F(x)
fn pattern(alloc: Global) -> Result<Fact, AllocError> {
    let args = variables(alloc, &[(Sort::Msg, 0)])?;
    persistent(alloc, "F", args)
}

// [ !F(x) ] --[ A(x) ]-> [ ]
fn patterns(alloc: Global) -> Result<Facts, AllocError> {
    let args = variables(alloc, &[(Sort::Msg, 0)])?;
    let actions = vec![in alloc; action(alloc, "A", args)?]?;
    let premises = vec![in alloc; pattern(alloc)?]?;
    Ok(Facts {
        premises,
        actions,
        conclusions: Vec::new(alloc),
    })
}

// snd(<'a', ~n7>) for x
fn values(alloc: Global) -> Result<Values, Fail> {
    let mut values = Values::new(alloc);
    values.push(message(0), ground_in(alloc, SECOND)?)?;
    Ok(values)
}

// The instance with this value in normal form.
fn instance(alloc: Global) -> Result<GroundFacts, Fail> {
    let facts = patterns(alloc)?;
    let made = facts_value(alloc, &values(alloc)?, &facts)?;
    let equations = Signature::pairs(alloc)?.equations;
    Ok(normal_facts(alloc, &equations, &made)?)
}

#[test]
fn instances_have_normal_forms(rt: HostRuntime) -> Result<(), Fail> {
    let alloc = rt.alloc();
    let values = values(alloc)?;
    let fact = pattern(alloc)?.changed(alloc, &Valuing { values: &values })?;
    assert!(rt; fact.persistent);
    assert_eq!(rt; terms_text(alloc, &fact.args)?.as_str(), SECOND);
    let made = instance(alloc)?;
    assert!(rt; made.premises.len() == 1 && made.actions.len() == 1 && made.conclusions.is_empty());
    for fact in &made.premises {
        assert_eq!(rt; terms_text(alloc, &fact.args)?.as_str(), "~n7");
    }
    for action in &made.actions {
        assert_eq!(rt; terms_text(alloc, &action.args)?.as_str(), "~n7");
    }
    Ok(())
}

#[test]
fn terms_are_over_the_symbols(rt: HostRuntime) -> Result<(), Fail> {
    let alloc = rt.alloc();
    let symbols = Signature::pairs(alloc)?.symbols;
    assert_eq!(rt; symbols.len(), 3);
    let name = Name::new(alloc, "snd")?;
    assert!(rt; has_symbol(&symbols, &name, 1) && !has_symbol(&symbols, &name, 2));
    assert!(rt; has_public(&symbols, &name, 1));
    let term = ground_in(alloc, SECOND)?;
    assert!(rt; is_over(&symbols, &term));
    assert!(rt; is_value(&symbols, Sort::Msg, &term) && !is_value(&symbols, Sort::Fresh, &term));
    let terms = grounds_in(alloc, &[SECOND])?;
    assert!(rt; are_over(&symbols, &terms));
    let other = ground_in(alloc, "h(snd(<'a', ~n7>))")?;
    assert!(rt; !is_over(&symbols, &other));
    Ok(())
}
