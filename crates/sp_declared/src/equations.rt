// The equations of a theory: those of pairs, of its builtins and of its own, each with its number in the text.

ghost use Rattle.std.specs.Prelude.{◌≡◌, [], ◌∷◌, ◌++◌, IfOk, OnOk, map};
ghost use Rattle.sp_spec.specs.Term as terms;
ghost use Rattle.sp_spec.specs.Formula.{Written};
ghost use Rattle.sp_spec.specs.Signature as signature;
ghost use Rattle.sp_term.specs.View.{name_of, sort_of, variable_of};
ghost use Rattle.sp_fact.specs.GroundView.{equation_of};
ghost use Rattle.sp_read_parts.specs.Views as parts;
ghost use Rattle.sp_spec_text.specs.Written.{item_builtins, item_equations, builtins_in, equations_in};
ghost use Rattle.sp_spec_text.specs.Declared as spec;
ghost use Rattle.sp_written.specs.Views as view;
ghost use Rattle.sp_declared.specs.Equations.{added_after, equations_named};
ghost use Rattle.sp_declared.specs.View.{texts_of};
ghost use Rattle.sp_declared.specs.NumberedView.{numbered_of};

use crate::builtins::Builtin;
use crate::names::{names, place_of, push_variables};
use sp_fact::signature::{Equation, Signature};
use sp_read_parts::{Mark, WrittenVariable};
use sp_term::apply::{Assigns, apply};
use sp_term::term::{Name, Sort, Term, Variable, same};
use sp_written::{Item, WrittenEquation};
use std::alloc::{AllocError, Global};

/// An equation, and which one of the text's it is.
#[derive(Drop)]
pub struct NumberedEquation {
    /// its place among the equations of the text, from 1 on; 0 where it is one of pairs or of a builtin
    pub number: usize,
    /// the equation, with its variables numbered
    pub equation: Equation,
}

// ---- one equation of the text

/// The sort of a variable of an equation that is marked so.
fn sort_marked(mark: Mark) -> Sort
    ensures { sort_of result ≡ spec.equation_sort (parts.mark mark) }
{
    match mark {
        Mark::Bare | Mark::Message => Sort::Msg,
        Mark::Fresh => Sort::Fresh,
        Mark::Public | Mark::Time => Sort::Pub,
    }
}

/// The names of an equation's variables, of which each is numbered by its place.
#[derive(Clone, Copy)]
struct Numbering<'a, 'b> {
    names: &'b Vec<&'a str>,
}

impl<'a, 'b> Assigns<WrittenVariable<'a>, Variable> for Numbering<'a, 'b> {
    ghost From = { Written };

    ghost To = { terms.Variable };

    ghost from_of = { parts.variable };

    ghost to_of = { variable_of };

    ghost value_of = { λ n. spec.equation_variable (texts_of n.names.now.items) };

    fn value(&self, _alloc: Global, leaf: &WrittenVariable<'a>) -> Result<Term, AllocError> {
        let sort = sort_marked(leaf.mark);
        let number = place_of(leaf.name, self.names) as u128;
        Ok(Term::Var(Variable { sort, number }))
    }
}

/// The equation with its variables numbered in first-seen order.
#[tactic(auto, using(crate::proofs::Adding::numbered_equation))]
fn numbered(alloc: Global, written: &WrittenEquation) -> Result<Equation, AllocError>
    ensures { IfOk result (λ e. equation_of e ≡ spec.equation_of (view.equation written.now)) }
{
    let mut variables = Vec::new(alloc);
    push_variables(&mut variables, &written.left)?;
    push_variables(&mut variables, &written.right)?;
    let names = names(alloc, &variables)?;
    let numbering = Numbering { names: &names };
    let left = apply(alloc, &numbering, &written.left)?;
    let right = apply(alloc, &numbering, &written.right)?;
    Ok(Equation { left, right })
}

// ---- all that are declared

/// Puts the equations of a builtin at the end, if this is the name of one.
fn push_builtin(alloc: Global, found: &mut Vec<Equation>, name: &Name) -> Result<(), AllocError>
    ensures { OnOk result (map equation_of found.new.items ≡ map equation_of found.old.items ++ spec.builtin_equations (spec.builtin_of (name_of name.now))) }
{
    match Builtin::named(name.text.as_str()) {
        Some(builtin) => {
            let mut more = builtin.equations(alloc)?;
            found.append(&mut more)?;
            Ok(())
        }
        None => Ok(()),
    }
}

/// The same of the builtins with these names.
fn push_builtins(
    alloc: Global,
    found: &mut Vec<Equation>,
    names: &Vec<Name>,
) -> Result<(), AllocError>
    ensures { OnOk result (map equation_of found.new.items ≡ map equation_of found.old.items ++ equations_named (map name_of names.now.items)) }
{
    for name in names {
        push_builtin(alloc, found, name)?;
    }
    Ok(())
}

/// The same of the builtins that the item names.
fn push_builtins_of(alloc: Global, found: &mut Vec<Equation>, item: &Item) -> Result<(), AllocError>
    ensures { OnOk result (map equation_of found.new.items ≡ map equation_of found.old.items ++ equations_named (item_builtins (view.item item.now))) }
{
    match item {
        Item::Builtins(names) => push_builtins(alloc, found, names),
        _ => Ok(()),
    }
}

/// The equations of all builtins.
fn builtin_equations(alloc: Global, items: &Vec<Item>) -> Result<Vec<Equation>, AllocError>
    ensures { IfOk result (λ es. map equation_of es.items ≡ equations_named (builtins_in (view.items items.now.items))) }
{
    let mut found = Vec::new(alloc);
    for item in items {
        push_builtins_of(alloc, &mut found, item)?;
    }
    Ok(found)
}

/// Puts these equations at the end, with their variables numbered.
fn push_written(
    alloc: Global,
    found: &mut Vec<Equation>,
    more: &Vec<WrittenEquation>,
) -> Result<(), AllocError>
    ensures { OnOk result (map equation_of found.new.items ≡ map equation_of found.old.items ++ map spec.equation_of (map view.equation more.now.items)) }
{
    for written in more {
        let equation = numbered(alloc, written)?;
        found.push(equation)?;
    }
    Ok(())
}

/// The same of those that the item declares itself.
fn push_written_of(alloc: Global, found: &mut Vec<Equation>, item: &Item) -> Result<(), AllocError>
    ensures { OnOk result (map equation_of found.new.items ≡ map equation_of found.old.items ++ map spec.equation_of (item_equations (view.item item.now))) }
{
    match item {
        Item::Equations(more) => push_written(alloc, found, more),
        _ => Ok(()),
    }
}

/// The equations of the text, with their variables numbered.
fn written_equations(alloc: Global, items: &Vec<Item>) -> Result<Vec<Equation>, AllocError>
    ensures { IfOk result (λ es. map equation_of es.items ≡ map spec.equation_of (equations_in (view.items items.now.items))) }
{
    let mut found = Vec::new(alloc);
    for item in items {
        push_written_of(alloc, &mut found, item)?;
    }
    Ok(found)
}

// ---- those that are none of the earlier ones

/// Whether one of these equations is the same, up to names of variables.
fn stands_among(equation: &Equation, equations: &Vec<NumberedEquation>) -> bool
    ensures { result ≡ spec.stands_among (equation_of equation.now) (spec.their_equations (map numbered_of equations.now.items)) }
{
    for other in equations {
        if same(&other.equation.left, &equation.left)
            && same(&other.equation.right, &equation.right)
        {
            return true;
        }
    }
    false
}

/// Puts the equation at the end, unless the same stands there.
#[tactic(auto, using(crate::proofs::Adding::added_one))]
fn add(
    equations: &mut Vec<NumberedEquation>,
    number: usize,
    equation: Equation,
) -> Result<(), AllocError>
    ensures { OnOk result (map numbered_of equations.new.items ≡ added_after (map numbered_of equations.old.items) ((number, equation_of equation) ∷ [])) }
{
    if !stands_among(&equation, equations) {
        equations.push(NumberedEquation { number, equation })?;
    }
    Ok(())
}

/// Puts the equations of builtins at the end, each unless the same stands there.
fn add_builtins(
    equations: &mut Vec<NumberedEquation>,
    more: Vec<Equation>,
) -> Result<(), AllocError>
    ensures { OnOk result (map numbered_of equations.new.items ≡ added_after (map numbered_of equations.old.items) (map spec.without_number (map equation_of more.items))) }
{
    for equation in more {
        add(equations, 0, equation)?;
    }
    Ok(())
}

/// The same of the equations of the text, which are numbered from 1 on.
fn add_written(equations: &mut Vec<NumberedEquation>, more: Vec<Equation>) -> Result<(), AllocError>
    ensures { OnOk result (map numbered_of equations.new.items ≡ added_after (map numbered_of equations.old.items) (spec.numbered_from 1 (map equation_of more.items))) }
{
    let mut number: usize = 0;
    for equation in more {
        let Some(next) = number.checked_add(1) else {
            return Err(AllocError);
        };
        number = next;
        add(equations, number, equation)?;
    }
    Ok(())
}

/// The equations of pairs.
fn pair_equations(alloc: Global) -> Result<Vec<NumberedEquation>, AllocError>
    ensures { IfOk result (λ es. map numbered_of es.items ≡ map spec.without_number signature.pair_equations) }
{
    let pairs = Signature::pairs(alloc)?;
    let mut made = Vec::with_capacity(alloc, pairs.equations.len())?;
    for equation in pairs.equations {
        made.push(NumberedEquation {
            number: 0,
            equation,
        })?;
    }
    Ok(made)
}

/// All equations of the theory with these items, in which names that are symbols are resolved: those of pairs, of its builtins and of its own.
/// Of those that are the same, up to names of variables, the first stays.
///
/// # Errors
///
/// `AllocError` where memory is wanting.
#[tactic(auto, using(crate::proofs::Adding::added_both))]
pub fn equations(alloc: Global, items: &Vec<Item>) -> Result<Vec<NumberedEquation>, AllocError>
    ensures { IfOk result (λ es. map numbered_of es.items ≡ spec.all_equations (view.items items.now.items)) }
{
    let mut equations = pair_equations(alloc)?;
    let builtin = builtin_equations(alloc, items)?;
    let written = written_equations(alloc, items)?;
    add_builtins(&mut equations, builtin)?;
    add_written(&mut equations, written)?;
    Ok(equations)
}
