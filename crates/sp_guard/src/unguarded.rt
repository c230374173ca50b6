// The first variable of a written formula that is not guarded, in the order of the text.

ghost use Rattle.std.specs.Prelude.{◌≡◌, ◌≤◌, ◌<◌, ◌+◌, ◌^◌, ◌++◌, IfOk, length, map};
ghost use Rattle.std.specs.Option.{option_or};
ghost use Rattle.sp_read_parts.specs.Views as view;
ghost use Rattle.sp_spec.specs.Formula as formulas;
ghost use Rattle.sp_read_parts.specs.Formulas.{Joint};
ghost use Rattle.sp_read_parts.specs.Formulas as written;
ghost use Rattle.sp_formula.specs.FormulaView.{atom_of, binder_of, formula_of};
ghost use Rattle.sp_law_guard.specs.GuardedForm as form;
ghost use Rattle.sp_law_guard.specs.IsGuarded as guarded;
ghost use Rattle.sp_guard.specs.View.{innermost_first};
ghost use Rattle.sp_guard.specs.Unguarded as spec;
ghost use Rattle.sp_guard.specs.FirstNamed.{named_in, named_in_form, below_each, above_of, name_of};

use crate::form::{guarded_form, within};
use crate::guarded::{message_guarded, messages_in, time_guarded, times_in};
use sp_formula::formula::{Atom, Binder, Formula};
use sp_read_parts::{Mark, ReadFormula, WrittenVariable};
use std::alloc::{AllocError, Global};

/// A formula's first unguarded variable is none exactly where its guarded form is guarded.
pub fn unguarded_is_told()
    ensures { spec.UnguardedIsTold }
{}

/// How many messages the quantifier directly above a formula binds, where an Ex is joined with it, and where an All is.
#[derive(Clone, Copy)]
pub struct QuantifierAbove {
    pub of_some: u64,
    pub of_all: u64,
}

const NOTHING_ABOVE: QuantifierAbove = QuantifierAbove {
    of_some: 0,
    of_all: 0,
};

impl QuantifierAbove {
    /// Below a negation.
    fn turned(self) -> QuantifierAbove
        ensures { above_of result ≡ spec.turned (above_of self) }
    {
        QuantifierAbove {
            of_some: self.of_all,
            of_all: self.of_some,
        }
    }

    /// Below an Ex of this variable.
    fn below(self, variable: &WrittenVariable) -> QuantifierAbove
        requires { self.of_some + 1 < 2 ^ 64 }
        ensures exact { above_of result ≡ spec.below_some (view.variable variable.now) (above_of self) }
        ensures one_more { result.of_some ≤ self.of_some + 1 }
        ensures no_more { result.of_all ≤ self.of_all }
    {
        match variable.mark {
            Mark::Time => QuantifierAbove {
                of_some: self.of_some,
                of_all: 0,
            },
            _ => QuantifierAbove {
                of_some: self.of_some + 1,
                of_all: 0,
            },
        }
    }

    /// Below an Ex of these variables.
    fn below_each(self, variables: &Vec<WrittenVariable>) -> QuantifierAbove
        requires { self.of_some + length variables.now.items < 2 ^ 64 }
        ensures exact { above_of result ≡ below_each (map view.variable variables.now.items) (above_of self) }
        ensures some_more { result.of_some ≤ self.of_some + length variables.now.items }
        ensures no_more { result.of_all ≤ self.of_all }
    {
        let mut above = self;
        for variable in variables {
            above = above.below(variable);
        }
        above
    }

    /// Below an All of these variables.
    fn below_all(self, variables: &Vec<WrittenVariable>) -> QuantifierAbove
        requires { self.of_all + length variables.now.items < 2 ^ 64 }
        ensures exact { above_of result ≡ spec.turned (below_each (map view.variable variables.now.items) (spec.turned (above_of self))) }
        ensures all_more { result.of_all ≤ self.of_all + length variables.now.items }
        ensures no_more { result.of_some ≤ self.of_some }
    {
        self.turned().below_each(variables).turned()
    }
}

/// The first of these names whose binder is not guarded; the quantifier binds `count` messages.
fn named_in<'a>(
    count: u64,
    guard: &Vec<Atom>,
    binders: &Vec<Binder>,
    named: &Vec<WrittenVariable<'a>>,
) -> Option<&'a str>
    requires { guarded.messages_in (map binder_of binders.now.items) ≤ count }
    ensures { name_of result ≡ named_in count (map atom_of guard.now.items) (map binder_of binders.now.items) (map view.variable named.now.items) }
{
    let mut messages = messages_in(binders);
    let mut times = times_in(binders);
    for (binder, variable) in binders.iter().zip(named) {
        match binder {
            Binder::Message(_) => {
                messages -= 1;
                if !message_guarded(count, guard, messages) {
                    return Some(variable.name);
                }
            }
            Binder::Time => {
                times -= 1;
                if !time_guarded(guard, times) {
                    return Some(variable.name);
                }
            }
        }
    }
    None
}

/// The first of a quantifier's names that is not guarded, where the quantifier that it is joined with binds `outer` messages.
fn named_in_form<'a>(
    outer: u64,
    form: &Formula,
    named: &Vec<WrittenVariable<'a>>,
) -> Option<&'a str>
    requires { outer < 2 ^ 63 }
    ensures { name_of result ≡ named_in_form outer (Some (formula_of form.now)) (map view.variable named.now.items) }
{
    match form {
        Formula::Exists(binders, guard, _) | Formula::ForAll(binders, guard, _) => {
            named_in(outer + messages_in(binders), guard, binders, named)
        }
        _ => None,
    }
}

/// The first of the names behind this quantifier that is not guarded, where the quantifier that it is joined with binds `outer` messages.
fn named_by<'a>(
    alloc: Global,
    binders: &Vec<WrittenVariable<'a>>,
    outer: u64,
    quantifier: &ReadFormula<'a>,
    named: &Vec<WrittenVariable<'a>>,
) -> Result<Option<&'a str>, AllocError>
    requires { outer ≤ length binders.now.items }
    ensures { IfOk result (λ o. name_of o ≡ named_in_form outer (form.guarded_form (innermost_first binders.now.items) (written.formula quantifier.now)) (map view.variable named.now.items)) }
{
    let Some(form) = guarded_form(alloc, binders, quantifier)? else {
        return Ok(None);
    };
    Ok(named_in_form(outer, &form, named))
}

/// The first variable inside these binders that is not guarded.
#[cycle(unguarded)]
fn unguarded<'a>(
    alloc: Global,
    binders: &Vec<WrittenVariable<'a>>,
    above: QuantifierAbove,
    formula: &ReadFormula<'a>,
) -> Result<Option<&'a str>, AllocError>
    requires few_in_some { above.of_some ≤ length binders.now.items }
    requires few_in_all { above.of_all ≤ length binders.now.items }
    ensures { IfOk result (λ o. name_of o ≡ spec.unguarded (innermost_first binders.now.items) (above_of above) (written.formula formula.now)) }
{
    match formula {
        ReadFormula::True | ReadFormula::False => Ok(None),
        ReadFormula::Happens(_, _) | ReadFormula::Equals(_, _) => Ok(None),
        ReadFormula::Precedes(_, _) => Ok(None),
        ReadFormula::Not(denied) => unguarded(alloc, binders, above.turned(), denied),
        ReadFormula::Both(left, right, more) | ReadFormula::Either(left, right, more) => {
            let first = unguarded(alloc, binders, NOTHING_ABOVE, left)?;
            let found = or_unguarded_alone(alloc, first, binders, right)?;
            or_unguarded_later(alloc, found, binders, more)
        }
        ReadFormula::Implies(left, right) | ReadFormula::Equivalent(left, right) => {
            let found = unguarded(alloc, binders, NOTHING_ABOVE, left)?;
            or_unguarded_alone(alloc, found, binders, right)
        }
        ReadFormula::ForAll(named, body) => {
            let below = above.below_all(named);
            unguarded_behind(alloc, body, named, binders, above.of_all, below, formula)
        }
        ReadFormula::ForSome(named, body) => {
            let below = above.below_each(named);
            unguarded_behind(alloc, body, named, binders, above.of_some, below, formula)
        }
    }
}

// The first of the names behind this quantifier that is not guarded, or else the first such variable of its body. The quantifier that
// it is joined with binds `outer` messages, and `below` are those above the body.
#[cycle(unguarded)]
fn unguarded_behind<'a>(
    alloc: Global,
    body: &ReadFormula<'a>,
    named: &Vec<WrittenVariable<'a>>,
    binders: &Vec<WrittenVariable<'a>>,
    outer: u64,
    below: QuantifierAbove,
    quantifier: &ReadFormula<'a>,
) -> Result<Option<&'a str>, AllocError>
    requires few_outside { outer ≤ length binders.now.items }
    requires few_in_some { below.of_some ≤ length binders.now.items + length named.now.items }
    requires few_in_all { below.of_all ≤ length binders.now.items + length named.now.items }
    ensures { IfOk result (λ o. name_of o ≡ option_or (named_in_form outer (form.guarded_form (innermost_first binders.now.items) (written.formula quantifier.now)) (map view.variable named.now.items))
        (spec.unguarded (innermost_first (binders.now.items ++ named.now.items)) (above_of below) (written.formula body.now))) }
{
    let found = named_by(alloc, binders, outer, quantifier, named)?;
    let inner = within(alloc, binders, named)?;
    or_unguarded(alloc, found, &inner, below, body)
}

// What is found already, or else the first variable that is not guarded in the formulas that follow.
#[cycle(unguarded)]
fn or_unguarded_later<'a>(
    alloc: Global,
    before: Option<&'a str>,
    binders: &Vec<WrittenVariable<'a>>,
    more: &Vec<ReadFormula<'a>>,
) -> Result<Option<&'a str>, AllocError>
    ensures { IfOk result (λ found. (o : Joint) (f : formulas.Formula) → name_of before.entry ≡ spec.unguarded (innermost_first binders.now.items) spec.nothing_above f
        → name_of found ≡ spec.unguarded (innermost_first binders.now.items) spec.nothing_above (written.chain o f (map written.formula more.now.items))) }
{
    let mut found = before;
    for part in more {
        found = or_unguarded_alone(alloc, found, binders, part)?;
    }
    Ok(found)
}

// What is found already, or else the first variable that is not guarded in a formula that no quantifier stands directly above.
#[cycle(unguarded)]
fn or_unguarded_alone<'a>(
    alloc: Global,
    found: Option<&'a str>,
    binders: &Vec<WrittenVariable<'a>>,
    formula: &ReadFormula<'a>,
) -> Result<Option<&'a str>, AllocError>
    ensures { IfOk result (λ o. name_of o ≡ option_or (name_of found.entry) (spec.unguarded (innermost_first binders.now.items) spec.nothing_above (written.formula formula.now))) }
{
    or_unguarded(alloc, found, binders, NOTHING_ABOVE, formula)
}

/// What is found already, or else the first variable inside these binders that is not guarded.
#[cycle(unguarded)]
fn or_unguarded<'a>(
    alloc: Global,
    found: Option<&'a str>,
    binders: &Vec<WrittenVariable<'a>>,
    above: QuantifierAbove,
    formula: &ReadFormula<'a>,
) -> Result<Option<&'a str>, AllocError>
    requires few_in_some { above.of_some ≤ length binders.now.items }
    requires few_in_all { above.of_all ≤ length binders.now.items }
    ensures { IfOk result (λ o. name_of o ≡ option_or (name_of found.entry) (spec.unguarded (innermost_first binders.now.items) (above_of above) (written.formula formula.now))) }
{
    if found.is_some() {
        return Ok(found);
    }
    unguarded(alloc, binders, above, formula)
}

/// The first variable of the closed formula that is not guarded, in the order of the text; none where the formula's guarded form is guarded.
///
/// # Errors
///
/// `AllocError` where memory is wanting.
pub fn first_unguarded<'a>(
    alloc: Global,
    formula: &ReadFormula<'a>,
) -> Result<Option<&'a str>, AllocError>
    ensures { IfOk result (λ o. name_of o ≡ spec.first_unguarded (written.formula formula.now)) }
{
    let none = Vec::new(alloc);
    unguarded(alloc, &none, NOTHING_ABOVE, formula)
}
