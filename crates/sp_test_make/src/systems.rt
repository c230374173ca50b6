// Events, links and systems.

use crate::facts::linear;
use crate::terms::variable;
use sp_fact::fact::Facts;
use sp_formula::formula::Formula;
use sp_system::event::Event;
use sp_system::system::{Link, System};
use sp_term::term::{Name, Sort};
use std::alloc::{AllocError, Global};

/// The event of the rule at this time.
pub fn event(alloc: Global, time: u128, rule: &str, facts: Facts) -> Result<Event, AllocError> {
    let rule = Name::new(alloc, rule)?;
    Event::step(alloc, time, rule, facts)
}

/// The event of a rule that takes the fresh names of these numbers.
pub fn taking_fresh(
    alloc: Global,
    time: u128,
    rule: &str,
    numbers: &[u128],
) -> Result<Event, AllocError> {
    let mut premises = Vec::new(alloc);
    for number in numbers {
        let args = vec![in alloc; variable(Sort::Fresh, *number)]?;
        premises.push(linear(alloc, "Fr", args)?)?;
    }
    let facts = Facts {
        premises,
        actions: Vec::new(alloc),
        conclusions: Vec::new(alloc),
    };
    event(alloc, time, rule, facts)
}

/// The conclusion of an event that gives the premise of another one.
pub fn link(from: u128, conclusion: usize, to: u128, premise: usize) -> Link {
    Link {
        from,
        conclusion,
        to,
        premise,
    }
}

/// The system of these formulas alone, whose next number is this.
pub fn system(alloc: Global, formulas: Vec<Formula>, next: u128) -> Result<System, AllocError> {
    let mut made = System::of_formulas(alloc, formulas)?;
    made.next = next;
    Ok(made)
}

/// The system of one formula, whose next number is this.
pub fn system_of_one(alloc: Global, formula: Formula, next: u128) -> Result<System, AllocError> {
    let formulas = vec![in alloc; formula]?;
    system(alloc, formulas, next)
}
