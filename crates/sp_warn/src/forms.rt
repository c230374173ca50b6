// The forms of facts and actions.

ghost use Rattle.std.specs.Prelude.{◌≡◌, ◌++◌, IfOk, OnOk, map};
ghost use Rattle.std.specs.List.{flat_map};
ghost use Rattle.sp_read_parts.specs.Views as parts;
ghost use Rattle.sp_written.specs.Views as view;
ghost use Rattle.sp_declared.specs.WrittenRules.{item_written, rules_written};
ghost use Rattle.sp_warn.specs.Forms as spec;
ghost use Rattle.sp_warn.specs.FormView.{form_of, usage_of};

use sp_read_parts::{WrittenAction, WrittenFact, WrittenRule};
use sp_written::Item;
use std::alloc::{AllocError, Global};

/// What a name is used for.
#[derive(Clone, Copy, PartialEq, Eq, Hash)]
pub enum Usage {
    /// facts that are taken
    Linear,
    /// facts that stay
    Persistent,
    Action,
}

/// What a name stands for.
#[derive(Clone, Copy, PartialEq, Eq, Hash)]
pub struct Form<'f> {
    pub symbol: &'f str,
    /// how many arguments it has
    pub arity: usize,
    pub usage: Usage,
}

/// The form of a fact.
pub fn fact_form<'f>(fact: &'f WrittenFact) -> Form<'f>
    ensures { form_of result ≡ spec.fact_form (parts.fact_of fact.now) }
{
    let usage = if fact.persistent {
        Usage::Persistent
    } else {
        Usage::Linear
    };
    Form {
        symbol: fact.symbol.text.as_str(),
        arity: fact.args.len(),
        usage,
    }
}

/// The form of an action.
pub fn action_form<'f>(action: &'f WrittenAction) -> Form<'f>
    ensures { form_of result ≡ spec.action_form (parts.action_of action.now) }
{
    Form {
        symbol: action.symbol.text.as_str(),
        arity: action.args.len(),
        usage: Usage::Action,
    }
}

/// Puts the forms of facts at the end.
fn push_facts<'f>(found: &mut Vec<Form<'f>>, facts: &'f Vec<WrittenFact>) -> Result<(), AllocError>
    ensures { OnOk result (map form_of found.new.items ≡ map form_of found.old.items ++ map spec.fact_form (parts.facts_of facts.now.items)) }
{
    for fact in facts {
        found.push(fact_form(fact))?;
    }
    Ok(())
}

/// Puts the forms of actions at the end.
fn push_actions<'f>(
    found: &mut Vec<Form<'f>>,
    actions: &'f Vec<WrittenAction>,
) -> Result<(), AllocError>
    ensures { OnOk result (map form_of found.new.items ≡ map form_of found.old.items ++ map spec.action_form (map parts.action_of actions.now.items)) }
{
    for action in actions {
        found.push(action_form(action))?;
    }
    Ok(())
}

/// Puts the forms of what the rule makes at the end.
#[tactic(auto, using(crate::proofs::Gathered::gathered))]
fn push_made_by<'f>(found: &mut Vec<Form<'f>>, rule: &'f WrittenRule) -> Result<(), AllocError>
    ensures { OnOk result (map form_of found.new.items ≡ map form_of found.old.items ++ spec.made_by (parts.rule rule.now)) }
{
    push_actions(found, &rule.facts.actions)?;
    push_facts(found, &rule.facts.conclusions)?;
    Ok(())
}

/// Puts the forms of all that stands in the rule at the end.
#[tactic(auto, using(crate::proofs::Gathered::gathered))]
fn push_all_of<'f>(found: &mut Vec<Form<'f>>, rule: &'f WrittenRule) -> Result<(), AllocError>
    ensures { OnOk result (map form_of found.new.items ≡ map form_of found.old.items ++ spec.forms_of (parts.rule rule.now)) }
{
    push_facts(found, &rule.facts.premises)?;
    push_made_by(found, rule)?;
    Ok(())
}

/// A fact or an action of one argument, that the built-in rules make.
fn built_in(symbol: &'static str, usage: Usage) -> Form<'static>
    ensures { form_of result ≡ spec.built_in symbol.now (usage_of usage) }
{
    Form {
        symbol,
        arity: 1,
        usage,
    }
}

/// The forms of what the built-in rules make.
fn built_in_forms<'f>(alloc: Global) -> Result<Vec<Form<'f>>, AllocError>
    ensures { IfOk result (λ fs. map form_of fs.items ≡ spec.made_by_built_in) }
{
    let mut made = Vec::with_capacity(alloc, 4)?;
    made.push(built_in("Fr", Usage::Linear))?;
    made.push(built_in("In", Usage::Linear))?;
    made.push(built_in("K", Usage::Action))?;
    made.push(built_in("KU", Usage::Action))?;
    Ok(made)
}

/// Puts the forms of what the item makes at the end, if it is a rule.
fn push_made_of<'f>(found: &mut Vec<Form<'f>>, item: &'f Item) -> Result<(), AllocError>
    ensures { OnOk result (map form_of found.new.items ≡ map form_of found.old.items ++ flat_map spec.made_by (item_written (view.item item.now))) }
{
    match item {
        Item::Rule(bound) => push_made_by(found, &bound.rule),
        _ => Ok(()),
    }
}

/// Puts the forms of all that stands in the item at the end, if it is a rule.
fn push_forms_of<'f>(found: &mut Vec<Form<'f>>, item: &'f Item) -> Result<(), AllocError>
    ensures { OnOk result (map form_of found.new.items ≡ map form_of found.old.items ++ flat_map spec.forms_of (item_written (view.item item.now))) }
{
    match item {
        Item::Rule(bound) => push_all_of(found, &bound.rule),
        _ => Ok(()),
    }
}

/// The forms of all that the rules among these items make, and of what the built-in ones do.
pub fn made_in<'f>(alloc: Global, items: &'f Vec<Item>) -> Result<Vec<Form<'f>>, AllocError>
    ensures { IfOk result (λ fs. map form_of fs.items ≡ spec.made_in (rules_written (view.items items.now.items))) }
{
    let mut made = built_in_forms(alloc)?;
    for item in items {
        push_made_of(&mut made, item)?;
    }
    Ok(made)
}

/// The forms of all that stands in the rules among these items, from left to right.
pub fn forms_in<'f>(alloc: Global, items: &'f Vec<Item>) -> Result<Vec<Form<'f>>, AllocError>
    ensures { IfOk result (λ fs. map form_of fs.items ≡ spec.forms_in (rules_written (view.items items.now.items))) }
{
    let mut found = Vec::new(alloc);
    for item in items {
        push_forms_of(&mut found, item)?;
    }
    Ok(found)
}
