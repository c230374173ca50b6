// A new step of a rule.

ghost use Rattle.std.specs.Prelude.{◌≡◌, IfOk};
ghost use Rattle.sp_term.specs.View.{name_of};
ghost use Rattle.sp_book.specs.View.{form_of};
ghost use Rattle.sp_system.specs.SystemView.{system_of};
ghost use Rattle.sp_spec_formula.specs.Action as spec;

use crate::renamed::renamed;
use sp_book::form::Form;
use sp_system::event::Event;
use sp_system::system::System;
use sp_term::term::Name;
use std::alloc::{AllocError, Global};

/// The system with one more event: a step at the time by a form of the rule of this name, over variables that are new.
///
/// # Errors
///
/// `AllocError` where memory is wanting, or no number is left.
pub fn with_step(
    alloc: Global,
    system: &System,
    time: u128,
    name: &Name,
    form: &Form,
) -> Result<System, AllocError>
    ensures { IfOk result (λ s. system_of s ≡ spec.with_step (system_of system.now) time (name_of name.now) (form_of form.now)) }
{
    let Some(next) = system.next.checked_add(form.count as u128) else {
        return Err(AllocError);
    };
    let facts = renamed(alloc, system.next, &form.facts)?;
    let event = Event::step(alloc, time, name.clone()?, facts)?;
    let mut made = system.clone()?;
    made.events.push(alloc, event)?;
    made.next = next;
    Ok(made)
}
