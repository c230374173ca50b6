// Whether two terms of a system that stand for names are the same.

ghost use Rattle.std.specs.Prelude.{◌≡◌, ◌||◌, ◌++◌, ◌∷◌, [], IfOk, codes, map, option_map};
ghost use Rattle.sp_spec.specs.Change.{placed};
ghost use Rattle.sp_spec.specs.Guarded as guarded;
ghost use Rattle.sp_spec.specs.Lists as lists;
ghost use Rattle.sp_spec_system.specs.System.{with_unequal};
ghost use Rattle.sp_spec_system.specs.Occurring.{names_of};
ghost use Rattle.sp_spec_formula.specs.Instantiate as formulas;
ghost use Rattle.sp_spec_formula.specs.Sides as spec;
ghost use Rattle.sp_term.specs.View.{name_of, view};
ghost use Rattle.sp_unify.specs.View.{pair_view};
ghost use Rattle.sp_system.specs.SystemView.{system_of};
ghost use Rattle.sp_moves.specs.View.{case_of, side_of};
ghost use Rattle.sp_moves_decide.specs.Sought as sought;
ghost use Rattle.sp_moves_decide.specs.Open.{are_there, each_way, open_cases};

use crate::occurring::{Sought, system_has};
use crate::top::has_variable;
use crate::with_formula::with_formula;
use sp_formula::formula::{Atom, Formula};
use sp_formula::place::placed;
use sp_moves::moves::{Case, Side};
use sp_shared::shared::Shared;
use sp_system::system::{System, UnequalPair};
use sp_term::term::{Name, Sort, Term, Variable, same};
use std::alloc::{AllocError, Global};

/// The term that the side is.
///
/// # Errors
///
/// `AllocError` where memory is wanting.
pub fn side_term(side: &Side) -> Result<Term, AllocError>
    ensures { IfOk result (λ t. view t ≡ spec.side_term (side_of side.now)) }
{
    match side {
        Side::Fresh(number) => Ok(Term::Var(Variable {
            sort: Sort::Fresh,
            number: *number,
        })),
        Side::Public(number) => Ok(Term::Var(Variable {
            sort: Sort::Pub,
            number: *number,
        })),
        Side::Constant(name) => {
            let name = name.clone()?;
            Ok(Term::Constant(name))
        }
    }
}

/// Whether the sides are of one sort, a variable first, and of two variables that of the lower number.
pub fn are_in_order(one: &Side, other: &Side) -> bool
    ensures { result ≡ spec.are_in_order (side_of one.now) (side_of other.now) }
{
    match (one, other) {
        (Side::Fresh(first), Side::Fresh(second)) => *first < *second,
        (Side::Public(first), Side::Public(second)) => *first < *second,
        (Side::Public(_), Side::Constant(_)) => true,
        _ => false,
    }
}

fn is_listed(name: &Name, names: &Vec<Name>) -> bool
    ensures { result ≡ lists.is_listed (name_of name.now) (map name_of names.now.items) }
{
    for other in names {
        if *other == *name {
            return true;
        }
    }
    false
}

fn is_found(constants: &Vec<Name>, system: &System, name: &Name) -> bool
    ensures { result ≡ (lists.is_listed (name_of name.now) (map name_of constants.now.items)
        || sought.system_has (sought.public_name (name_of name.now)) (system_of system.now)) }
{
    is_listed(name, constants) || system_has(Sought::PublicName(name), system)
}

// It is one of these names, or stands in the system.
fn has_name(constants: &Vec<Name>, system: &System, name: &Name) -> bool
    ensures { result ≡ lists.is_listed (name_of name.now) (map name_of constants.now.items ++ names_of (system_of system.now)) }
{
    is_found(constants, system, name)
}

/// Whether the side stands in the system, if it is a variable; if it is a public name, whether it stands there or is one of these.
pub fn stands_there(constants: &Vec<Name>, system: &System, side: &Side) -> bool
    ensures { result ≡ spec.stands_there (map name_of constants.now.items) (system_of system.now) (side_of side.now) }
{
    match side {
        Side::Fresh(number) => has_variable(system, Sort::Fresh, *number),
        Side::Public(number) => has_variable(system, Sort::Pub, *number),
        Side::Constant(name) => has_name(constants, system, name),
    }
}

/// Whether the terms are an unequal pair, in either order.
pub fn are_apart(pairs: &Vec<UnequalPair>, left: &Term, right: &Term) -> bool
    ensures { result ≡ spec.are_apart (map pair_view pairs.now.items) (view left.now) (view right.now) }
{
    for pair in pairs {
        if same(&pair.0, left) && same(&pair.1, right)
            || same(&pair.0, right) && same(&pair.1, left)
        {
            return true;
        }
    }
    false
}

// They are the same.
fn as_same(alloc: Global, system: &System, left: &Term, right: &Term) -> Result<Case, AllocError>
    ensures { IfOk result (λ c. case_of c ≡ record {
      name = codes "same";
      system = formulas.with_formula (system_of system.now) (guarded.holds (guarded.same (placed (view left.now)) (placed (view right.now))));
    }) }
{
    let left = placed(alloc, left)?;
    let right = placed(alloc, right)?;
    let formula = Formula::Holds(Atom::Same(left, right));
    let made = with_formula(alloc, system, "same", formula)?;
    Ok(made)
}

// They differ.
fn as_unequal(alloc: Global, system: &System, left: Term, right: Term) -> Result<Case, AllocError>
    ensures { IfOk result (λ c. case_of c ≡ record {
      name = codes "unequal";
      system = with_unequal (system_of system.now) ((system_of system.now).unequal ++ (view left, view right) ∷ []);
    }) }
{
    let pair = Shared::new(alloc, (left, right))?;
    let mut made = system.clone()?;
    made.unequal.push(alloc, pair)?;
    let name = String::from_str(alloc, "unequal")?;
    Ok(Case { name, system: made })
}

fn each_way(
    alloc: Global,
    system: &System,
    left: Term,
    right: Term,
) -> Result<Vec<Case>, AllocError>
    ensures { IfOk result (λ cs. map case_of cs.items
        ≡ each_way (system_of system.now) (view left) (view right)) }
{
    let mut made = Vec::new(alloc);
    made.push(as_same(alloc, system, &left, &right)?)?;
    made.push(as_unequal(alloc, system, left, right)?)?;
    Ok(made)
}

// The sides are in order, and stand in the system.
fn are_there(constants: &Vec<Name>, system: &System, one: &Side, other: &Side) -> bool
    ensures { result ≡ are_there (map name_of constants.now.items) (system_of system.now) (side_of one.now) (side_of other.now) }
{
    are_in_order(one, other)
        && stands_there(constants, system, one)
        && stands_there(constants, system, other)
}

// The cases of the terms of two sides, where it is open whether they are the same.
fn open_cases(
    alloc: Global,
    system: &System,
    left: Term,
    right: Term,
) -> Result<Option<Vec<Case>>, AllocError>
    ensures { IfOk result (λ o. option_map (λ cs. map case_of cs.items) o
        ≡ open_cases (system_of system.now) (view left) (view right)) }
{
    if are_apart(&system.unequal, &left, &right) {
        return Ok(None);
    }
    let made = each_way(alloc, system, left, right)?;
    Ok(Some(made))
}

/// The cases in which the two terms are the same, and differ, before they are simplified; none where they don't both stand in the system, aren't in order, or are
/// known to differ. The public names are those that stand in the theory.
///
/// # Errors
///
/// `AllocError` where memory is wanting.
#[tactic(auto, using(crate::proofs::Parted::parted))]
pub fn same_cases(
    alloc: Global,
    constants: &Vec<Name>,
    system: &System,
    one: &Side,
    other: &Side,
) -> Result<Option<Vec<Case>>, AllocError>
    ensures { IfOk result (λ o. option_map (λ cs. map case_of cs.items) o
        ≡ spec.same_cases (map name_of constants.now.items) (system_of system.now) (side_of one.now) (side_of other.now)) }
{
    if !are_there(constants, system, one, other) {
        return Ok(None);
    }
    let left = side_term(one)?;
    let right = side_term(other)?;
    let made = open_cases(alloc, system, left, right)?;
    Ok(made)
}
