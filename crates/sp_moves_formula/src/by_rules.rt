// An action at a new step of some rule.

ghost use Rattle.std.specs.Prelude.{◌≡◌, IfOk, map, slice_get};
ghost use Rattle.sp_fact.specs.View.{action_of};
ghost use Rattle.sp_term.specs.View.{name_of};
ghost use Rattle.sp_book.specs.View.{form_of, rule_forms_of};
ghost use Rattle.sp_book.specs.Book.{by_found};
ghost use Rattle.sp_book.specs.BookView.{book_of};
ghost use Rattle.sp_system.specs.SystemView.{system_of};
ghost use Rattle.sp_spec_formula.specs.Action as spec;
ghost use Rattle.sp_moves.specs.View.{case_of};
ghost use Rattle.sp_moves_formula.specs.Sought.{by_form, by_rule};

use sp_book::book::RuleBook;
use sp_book::form::{Form, RuleForms};
use sp_fact::fact::Action;
use sp_moves::moves::Case;
use sp_moves::named::named;
use sp_moves::renamed::renamed;
use sp_moves::where_same::by_actions;
use sp_moves::with_step::with_step;
use sp_system::system::System;
use sp_term::term::Name;
use std::alloc::{AllocError, Global};

// By one form of the rule.
fn by_form(
    alloc: Global,
    system: &System,
    time: u128,
    action: &Action,
    name: &Name,
    form: &Form,
) -> Result<Vec<System>, AllocError>
    ensures { IfOk result (λ ss. map system_of ss.items ≡ by_form (name_of name.now) (form_of form.now) (system_of system.now) time (action_of action.now)) }
{
    let facts = renamed(alloc, system.next, &form.facts)?;
    let stepped = with_step(alloc, system, time, name, form)?;
    let systems = by_actions(alloc, &stepped, action, &facts.actions)?;
    Ok(systems)
}

// By each form of the rule, in their order.
fn by_forms(
    alloc: Global,
    system: &System,
    time: u128,
    action: &Action,
    rule: &RuleForms,
) -> Result<Vec<System>, AllocError>
    ensures { IfOk result (λ ss. map system_of ss.items
        ≡ spec.by_forms (name_of rule.now.name) (map form_of rule.now.forms.items) (system_of system.now) time (action_of action.now)) }
{
    let mut made = Vec::new(alloc);
    for form in &rule.forms {
        let mut systems = by_form(alloc, system, time, action, &rule.name, form)?;
        made.append(&mut systems)?;
    }
    Ok(made)
}

fn by_rule(
    alloc: Global,
    system: &System,
    time: u128,
    action: &Action,
    rule: &RuleForms,
) -> Result<Vec<Case>, AllocError>
    ensures { IfOk result (λ cs. map case_of cs.items ≡ by_rule (rule_forms_of rule.now) (system_of system.now) time (action_of action.now)) }
{
    let systems = by_forms(alloc, system, time, action, rule)?;
    let made = named(alloc, &rule.name, systems)?;
    Ok(made)
}

fn by_place(
    alloc: Global,
    rules: &RuleBook,
    system: &System,
    time: u128,
    action: &Action,
    place: usize,
) -> Result<Vec<Case>, AllocError>
    ensures { IfOk result (λ cs. map case_of cs.items
        ≡ by_found (λ r. by_rule r (system_of system.now) time (action_of action.now)) (slice_get (book_of rules.now) place)) }
{
    match rules.rules.get(place) {
        Some(rule) => by_rule(alloc, system, time, action, rule),
        None => Ok(Vec::new(alloc)),
    }
}

/// The cases of a new step of each rule at the time, whose action is this one.
///
/// # Errors
///
/// `AllocError` where memory is wanting, or no number is left.
// A rule without an action of this name, as most are, gives no case and isn't looked at.
pub fn by_each(
    alloc: Global,
    rules: &RuleBook,
    system: &System,
    time: u128,
    action: &Action,
) -> Result<Vec<Case>, AllocError>
    ensures { IfOk result (λ cs. map case_of cs.items ≡ spec.by_each (book_of rules.now) (system_of system.now) time (action_of action.now)) }
{
    let mut made = Vec::new(alloc);
    for place in rules.places(&action.symbol) {
        let mut cases = by_place(alloc, rules, system, time, action, *place)?;
        made.append(&mut cases)?;
    }
    Ok(made)
}
