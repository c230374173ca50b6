// What `let` binds in rules, and the bound names that stand with another mark than their binding's.

ghost use Rattle.std.specs.Prelude.{◌≡◌, ◌∷◌, ◌++◌, [], IfOk, OnOk, map};
ghost use Rattle.sp_spec.specs.Term.{in_term};
ghost use Rattle.sp_spec_text.specs.Bindings as text;
ghost use Rattle.sp_read_parts.specs.Views as parts;
ghost use Rattle.sp_written.specs.Views as view;
ghost use Rattle.sp_declared.specs.View.{texts_of};
ghost use Rattle.sp_wf_rules.specs.BindingFindings as spec;
ghost use Rattle.sp_wf_rules.specs.BindingView.{bound_of, all_bound, names_of};

use sp_declared::names::{push_variables, see};
use sp_finding::occurrences;
use sp_read_parts::{Mark, WrittenBinding, WrittenVariable};
use sp_written::{BoundRule, Item};
use std::alloc::{AllocError, Global};

/// A bound name with its mark.
#[derive(Drop)]
pub struct Bound<'a> {
    pub variable: WrittenVariable<'a>,
    /// the names that stand in its value with another mark than their binding's, each once
    pub misused: Vec<&'a str>,
}

/// What `let` binds in a rule; nothing where it has no bindings.
#[derive(Drop)]
pub struct BoundNames<'a> {
    /// the names that are bound, from the top down
    pub bound: Vec<&'a str>,
    /// those that stand in the rule with another mark than their binding's, each once, as they are met
    pub misused: Vec<&'a str>,
}

/// Whether names with these marks are of one sort; a bare name is one of sort msg.
fn is_same_mark(one: Mark, other: Mark) -> bool
    ensures { result ≡ spec.is_same_mark (parts.mark one) (parts.mark other) }
{
    match (one, other) {
        (Mark::Bare | Mark::Message, Mark::Bare | Mark::Message) => true,
        (Mark::Fresh, Mark::Fresh) => true,
        (Mark::Public, Mark::Public) => true,
        (Mark::Time, Mark::Time) => true,
        _ => false,
    }
}

/// Puts these names at the end, but for those that are there.
fn see_all<'a>(names: &mut Vec<&'a str>, more: &Vec<&'a str>) -> Result<(), AllocError>
    ensures { OnOk result (texts_of names.new.items ≡ spec.and_new (texts_of names.old.items) (texts_of more.now.items)) }
{
    for name in more {
        see(names, *name)?;
    }
    Ok(())
}

/// The same of the name of the variable, where it is marked otherwise than bound, and of those that are misused in its value.
fn see_misused_in<'a>(
    names: &mut Vec<&'a str>,
    bound: &Bound<'a>,
    variable: WrittenVariable<'a>,
) -> Result<(), AllocError>
    ensures { OnOk result (texts_of names.new.items ≡ spec.and_new (texts_of names.old.items) (spec.misused_in (bound_of bound.now) (parts.variable variable.entry))) }
{
    if !is_same_mark(bound.variable.mark, variable.mark) {
        see(names, variable.name)?;
    }
    see_all(names, &bound.misused)
}

/// The same of the variable, by the first binding of its name, if it is bound.
fn see_misused_at<'a>(
    names: &mut Vec<&'a str>,
    above: &Vec<Bound<'a>>,
    variable: WrittenVariable<'a>,
) -> Result<(), AllocError>
    ensures { OnOk result (texts_of names.new.items ≡ spec.and_new (texts_of names.old.items) (spec.misused_at (all_bound above.now.items) (parts.variable variable.entry))) }
{
    for bound in above {
        if bound.variable.name == variable.name {
            return see_misused_in(names, bound, variable);
        }
    }
    Ok(())
}

/// The names that are misused where these variables stand, each once.
fn misused_among<'a>(
    alloc: Global,
    above: &Vec<Bound<'a>>,
    variables: &Vec<WrittenVariable<'a>>,
) -> Result<Vec<&'a str>, AllocError>
    ensures { IfOk result (λ names. texts_of names.items ≡ spec.misused_among (all_bound above.now.items) (map parts.variable variables.now.items)) }
{
    let mut names = Vec::new(alloc);
    for variable in variables {
        see_misused_at(&mut names, above, *variable)?;
    }
    Ok(names)
}

/// What the binding binds, behind these.
fn bound_by<'a>(
    alloc: Global,
    above: &Vec<Bound<'a>>,
    binding: &WrittenBinding<'a>,
) -> Result<Bound<'a>, AllocError>
    ensures { IfOk result (λ b. bound_of b ≡ spec.bound_by (all_bound above.now.items) (parts.binding binding.now)) }
{
    let mut variables = Vec::new(alloc);
    push_variables(&mut variables, &binding.value)?;
    let misused = misused_among(alloc, above, &variables)?;
    Ok(Bound {
        variable: binding.variable,
        misused,
    })
}

/// What the bindings bind, from the top down.
fn all_bound<'a>(
    alloc: Global,
    bindings: &Vec<WrittenBinding<'a>>,
) -> Result<Vec<Bound<'a>>, AllocError>
    ensures { IfOk result (λ bs. all_bound bs.items ≡ spec.bound_after [] (parts.bindings bindings.now.items)) }
{
    let mut above = Vec::new(alloc);
    for binding in bindings {
        let bound = bound_by(alloc, &above, binding)?;
        above.push(bound)?;
    }
    Ok(above)
}

/// The names that the bindings bind.
fn names_of<'a>(
    alloc: Global,
    bindings: &Vec<WrittenBinding<'a>>,
) -> Result<Vec<&'a str>, AllocError>
    ensures { IfOk result (λ ns. texts_of ns.items ≡ map (λ (b : text.Binding). b.variable.name) (parts.bindings bindings.now.items)) }
{
    let mut names = Vec::new(alloc);
    for binding in bindings {
        names.push(binding.variable.name)?;
    }
    Ok(names)
}

/// What the rule binds.
fn names_bound<'a>(alloc: Global, rule: &BoundRule<'a>) -> Result<BoundNames<'a>, AllocError>
    ensures { IfOk result (λ b. names_of b ≡ spec.names_bound (parts.bindings rule.now.bindings.items) (parts.rule rule.now.rule).facts) }
{
    let bound = names_of(alloc, &rule.bindings)?;
    let above = all_bound(alloc, &rule.bindings)?;
    let variables = occurrences(alloc, &rule.rule)?;
    let misused = misused_among(alloc, &above, &variables)?;
    Ok(BoundNames { bound, misused })
}

/// Nothing.
fn nothing_bound<'a>(alloc: Global) -> BoundNames<'a>
    ensures { names_of result ≡ record { bound = []; misused = [] } }
{
    BoundNames {
        bound: Vec::new(alloc),
        misused: Vec::new(alloc),
    }
}

/// What the rule binds that the item is; nothing where it is none.
fn item_bound<'a>(alloc: Global, item: &Item<'a>) -> Result<BoundNames<'a>, AllocError>
    ensures { IfOk result (λ b. names_of b ≡ spec.item_bound (view.item item.now)) }
{
    match item {
        Item::Rule(rule) => names_bound(alloc, rule),
        _ => Ok(nothing_bound(alloc)),
    }
}

/// What is bound in each of the items, one for each, before values stand for the names.
///
/// # Errors
///
/// `AllocError` where memory is wanting.
pub fn bound_in<'a>(alloc: Global, items: &Vec<Item<'a>>) -> Result<Vec<BoundNames<'a>>, AllocError>
    ensures { IfOk result (λ bs. map names_of bs.items ≡ spec.bound_in (view.items items.now.items)) }
{
    let mut bound = Vec::with_capacity(alloc, items.len())?;
    for item in items {
        let names = item_bound(alloc, item)?;
        bound.push(names)?;
    }
    Ok(bound)
}
