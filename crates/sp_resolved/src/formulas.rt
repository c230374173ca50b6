// Formulas with symbols in the place of the names that are such.

ghost use Rattle.std.specs.Prelude.{◌≡◌, [], ◌++◌, IfOk, IsOkAnd, map};
ghost use Rattle.sp_spec.specs.Lists.{newest_first};
ghost use Rattle.sp_spec.specs.Formula.{happens, equals, not_so, both, either, implies};
ghost use Rattle.sp_fact.specs.GroundView.{symbol_of};
ghost use Rattle.sp_read_parts.specs.Formulas.{conjoint, disjoint};
ghost use Rattle.sp_read_parts.specs.Views as parts;
ghost use Rattle.sp_read_parts.specs.Formulas as forms;
ghost use Rattle.sp_spec_text.specs.Shapes.{quantified};
ghost use Rattle.sp_spec_text.specs.Formulas.{quantified_some, equivalent};
ghost use Rattle.sp_spec_text.specs.Declared as spec;
ghost use Rattle.sp_declared.specs.View.{texts_of};
ghost use Rattle.sp_resolved.specs.Names.{innermost_first, named};

use crate::names::Resolving;
use sp_fact::signature::Symbol;
use sp_read_parts::{ReadFormula, WrittenAction, WrittenTerm, WrittenVariable};
use sp_term::apply::apply;
use std::alloc::{AllocError, Global};

/// The bound names with those of a quantifier inside them.
fn within<'a>(
    alloc: Global,
    bound: &Vec<&'a str>,
    more: &Vec<WrittenVariable<'a>>,
) -> Result<Vec<&'a str>, AllocError>
    ensures { IfOk result (λ ns. texts_of ns.items ≡ texts_of bound.now.items ++ map named (map parts.variable more.now.items)) }
{
    let mut names = Vec::with_capacity(alloc, bound.len())?;
    names.extend_from_slice(bound)?;
    for variable in more {
        names.push(variable.name)?;
    }
    Ok(names)
}

/// The variables that a quantifier binds, once more.
fn copy_all<'a>(
    alloc: Global,
    variables: &Vec<WrittenVariable<'a>>,
) -> Result<Vec<WrittenVariable<'a>>, AllocError>
    ensures { IfOk result (λ vs. vs.items ≡ variables.now.items) }
{
    let mut made = Vec::with_capacity(alloc, variables.len())?;
    made.extend_from_slice(variables)?;
    Ok(made)
}

/// The formula in a box.
fn in_box<'a>(alloc: Global, made: ReadFormula<'a>) -> Result<Box<ReadFormula<'a>>, AllocError>
    ensures { IfOk result (λ f. forms.formula f.value ≡ forms.formula made.entry) }
{
    let boxed = Box::new(alloc, made)?;
    Ok(boxed)
}

/// That the action stands at the time, with symbols in the place of the names that are such.
fn happening<'a>(
    alloc: Global,
    symbols: &Vec<Symbol>,
    bound: &Vec<&'a str>,
    action: &WrittenAction<'a>,
    at: WrittenVariable<'a>,
) -> Result<Box<ReadFormula<'a>>, AllocError>
    ensures { IfOk result (λ f. forms.formula f.value ≡ spec.resolved_formula (map symbol_of symbols.now.items) (innermost_first bound.now.items) (happens (parts.action_of action.now) (parts.variable at.entry))) }
{
    let resolving = Resolving { symbols, bound };
    let action = action.changed(alloc, &resolving)?;
    in_box(alloc, ReadFormula::Happens(action, at))
}

/// That the terms are equal, with symbols in the place of the names that are such.
fn equality<'a>(
    alloc: Global,
    symbols: &Vec<Symbol>,
    bound: &Vec<&'a str>,
    left: &WrittenTerm<'a>,
    right: &WrittenTerm<'a>,
) -> Result<Box<ReadFormula<'a>>, AllocError>
    ensures { IfOk result (λ f. forms.formula f.value ≡ spec.resolved_formula (map symbol_of symbols.now.items) (innermost_first bound.now.items) (equals (parts.term left.now) (parts.term right.now))) }
{
    let resolving = Resolving { symbols, bound };
    let left = apply(alloc, &resolving, left)?;
    let right = apply(alloc, &resolving, right)?;
    in_box(alloc, ReadFormula::Equals(left, right))
}

/// What is made of a formula in memory, or want of memory.
type Made<'a> = Result<Box<ReadFormula<'a>>, AllocError>;

/// That the formula doesn't hold.
fn negation<'a>(alloc: Global, denied: Made<'a>) -> Made<'a>
    ensures { IfOk result (λ f. IsOkAnd denied.entry (λ d. forms.formula f.value ≡ not_so (forms.formula d.value))) }
{
    let denied = denied?;
    in_box(alloc, ReadFormula::Not(denied))
}

/// All of them: two formulas, and those that follow.
fn conjunction<'a>(
    alloc: Global,
    left: Made<'a>,
    right: Made<'a>,
    more: Result<Vec<ReadFormula<'a>>, AllocError>,
) -> Made<'a>
    ensures { IfOk result (λ f. IsOkAnd left.entry (λ l. IsOkAnd right.entry (λ r. IsOkAnd more.entry (λ m. forms.formula f.value ≡ forms.chain conjoint (both (forms.formula l.value) (forms.formula r.value)) (map forms.formula m.items))))) }
{
    let left = left?;
    let right = right?;
    let more = more?;
    in_box(alloc, ReadFormula::Both(left, right, more))
}

/// One of them: two formulas, and those that follow.
fn disjunction<'a>(
    alloc: Global,
    left: Made<'a>,
    right: Made<'a>,
    more: Result<Vec<ReadFormula<'a>>, AllocError>,
) -> Made<'a>
    ensures { IfOk result (λ f. IsOkAnd left.entry (λ l. IsOkAnd right.entry (λ r. IsOkAnd more.entry (λ m. forms.formula f.value ≡ forms.chain disjoint (either (forms.formula l.value) (forms.formula r.value)) (map forms.formula m.items))))) }
{
    let left = left?;
    let right = right?;
    let more = more?;
    in_box(alloc, ReadFormula::Either(left, right, more))
}

/// That the first formula implies the second.
fn implication<'a>(alloc: Global, left: Made<'a>, right: Made<'a>) -> Made<'a>
    ensures { IfOk result (λ f. IsOkAnd left.entry (λ l. IsOkAnd right.entry (λ r. forms.formula f.value ≡ implies (forms.formula l.value) (forms.formula r.value)))) }
{
    let left = left?;
    let right = right?;
    in_box(alloc, ReadFormula::Implies(left, right))
}

/// That each formula implies the other.
fn equivalence<'a>(alloc: Global, left: Made<'a>, right: Made<'a>) -> Made<'a>
    ensures { IfOk result (λ f. IsOkAnd left.entry (λ l. IsOkAnd right.entry (λ r. forms.formula f.value ≡ equivalent (forms.formula l.value) (forms.formula r.value)))) }
{
    let left = left?;
    let right = right?;
    in_box(alloc, ReadFormula::Equivalent(left, right))
}

/// That the formula holds of all values of the variables.
fn for_all<'a>(alloc: Global, variables: &Vec<WrittenVariable<'a>>, body: Made<'a>) -> Made<'a>
    ensures { IfOk result (λ f. IsOkAnd body.entry (λ b. forms.formula f.value ≡ quantified (map parts.variable variables.now.items) (forms.formula b.value))) }
{
    let body = body?;
    let variables = copy_all(alloc, variables)?;
    in_box(alloc, ReadFormula::ForAll(variables, body))
}

/// That the formula holds of some values of the variables.
fn for_some<'a>(alloc: Global, variables: &Vec<WrittenVariable<'a>>, body: Made<'a>) -> Made<'a>
    ensures { IfOk result (λ f. IsOkAnd body.entry (λ b. forms.formula f.value ≡ quantified_some (map parts.variable variables.now.items) (forms.formula b.value))) }
{
    let body = body?;
    let variables = copy_all(alloc, variables)?;
    in_box(alloc, ReadFormula::ForSome(variables, body))
}

/// The formula with symbols in the place of the names that are such.
#[cycle(resolving)]
fn formula<'a>(
    alloc: Global,
    symbols: &Vec<Symbol>,
    bound: &Vec<&'a str>,
    whole: &ReadFormula<'a>,
) -> Result<ReadFormula<'a>, AllocError>
    ensures { IfOk result (λ f. forms.formula f ≡ spec.resolved_formula (map symbol_of symbols.now.items) (innermost_first bound.now.items) (forms.formula whole.now)) }
{
    let made = boxed(alloc, symbols, bound, whole)?;
    Ok(Box::into_inner(made))
}

/// The same in a box.
#[cycle(resolving)]
fn boxed<'a>(
    alloc: Global,
    symbols: &Vec<Symbol>,
    bound: &Vec<&'a str>,
    whole: &ReadFormula<'a>,
) -> Result<Box<ReadFormula<'a>>, AllocError>
    ensures { IfOk result (λ f. forms.formula f.value ≡ spec.resolved_formula (map symbol_of symbols.now.items) (innermost_first bound.now.items) (forms.formula whole.now)) }
{
    match whole {
        ReadFormula::True => in_box(alloc, ReadFormula::True),
        ReadFormula::False => in_box(alloc, ReadFormula::False),
        ReadFormula::Happens(action, at) => happening(alloc, symbols, bound, action, *at),
        ReadFormula::Equals(left, right) => equality(alloc, symbols, bound, left, right),
        ReadFormula::Precedes(first, second) => {
            in_box(alloc, ReadFormula::Precedes(*first, *second))
        }
        ReadFormula::Not(denied) => {
            let made = boxed(alloc, symbols, bound, denied);
            negation(alloc, made)
        }
        ReadFormula::Both(left, right, more) => {
            let first = boxed(alloc, symbols, bound, left);
            let second = boxed(alloc, symbols, bound, right);
            let others = formulas(alloc, symbols, bound, more);
            conjunction(alloc, first, second, others)
        }
        ReadFormula::Either(left, right, more) => {
            let first = boxed(alloc, symbols, bound, left);
            let second = boxed(alloc, symbols, bound, right);
            let others = formulas(alloc, symbols, bound, more);
            disjunction(alloc, first, second, others)
        }
        ReadFormula::Implies(left, right) => {
            let first = boxed(alloc, symbols, bound, left);
            let second = boxed(alloc, symbols, bound, right);
            implication(alloc, first, second)
        }
        ReadFormula::Equivalent(left, right) => {
            let first = boxed(alloc, symbols, bound, left);
            let second = boxed(alloc, symbols, bound, right);
            equivalence(alloc, first, second)
        }
        ReadFormula::ForAll(variables, body) => {
            let made = inside(alloc, symbols, bound, variables, body);
            for_all(alloc, variables, made)
        }
        ReadFormula::ForSome(variables, body) => {
            let made = inside(alloc, symbols, bound, variables, body);
            for_some(alloc, variables, made)
        }
    }
}

/// The same of the formula that these variables are bound in.
#[cycle(resolving)]
fn inside<'a>(
    alloc: Global,
    symbols: &Vec<Symbol>,
    bound: &Vec<&'a str>,
    variables: &Vec<WrittenVariable<'a>>,
    body: &ReadFormula<'a>,
) -> Result<Box<ReadFormula<'a>>, AllocError>
    ensures { IfOk result (λ f. forms.formula f.value ≡ spec.resolved_formula (map symbol_of symbols.now.items) (newest_first (texts_of bound.now.items ++ map named (map parts.variable variables.now.items))) (forms.formula body.now)) }
{
    let inner = within(alloc, bound, variables)?;
    boxed(alloc, symbols, &inner, body)
}

/// The same of each of these formulas.
#[cycle(resolving)]
fn formulas<'a>(
    alloc: Global,
    symbols: &Vec<Symbol>,
    bound: &Vec<&'a str>,
    parts: &Vec<ReadFormula<'a>>,
) -> Result<Vec<ReadFormula<'a>>, AllocError>
    ensures { IfOk result (λ fs. map forms.formula fs.items ≡ map (spec.resolved_formula (map symbol_of symbols.now.items) (innermost_first bound.now.items)) (map forms.formula parts.now.items)) }
{
    let mut made = Vec::with_capacity(alloc, parts.len())?;
    for part in parts {
        made.push(formula(alloc, symbols, bound, part)?)?;
    }
    Ok(made)
}

/// The formula, outside of which nothing is bound, with symbols in the place of the names that are such.
pub fn closed_formula<'a>(
    alloc: Global,
    symbols: &Vec<Symbol>,
    written: &ReadFormula<'a>,
) -> Result<ReadFormula<'a>, AllocError>
    ensures { IfOk result (λ f. forms.formula f ≡ spec.resolved_formula (map symbol_of symbols.now.items) [] (forms.formula written.now)) }
{
    let bound = Vec::new(alloc);
    formula(alloc, symbols, &bound, written)
}
