// Narrowing: all ways to use equations at the places of terms.

ghost use Rattle.std.specs.Prelude.{◌≡◌, ◌+◌, [], ◌∷◌, ◌++◌, IfOk, OnOk, map};
ghost use Rattle.std.specs.List.{flat_map};
ghost use Rattle.sp_spec.specs.Term.{app};
ghost use Rattle.sp_term.specs.View.{name_of, view, view_all};
ghost use Rattle.sp_unify.specs.View.{pair_view};
ghost use Rattle.sp_fact.specs.GroundView.{equation_of};
ghost use Rattle.sp_spec_forms.specs.Shifted.{above};
ghost use Rattle.sp_spec_forms.specs.Narrowing as spec;
ghost use Rattle.sp_variant.specs.View.{chosen_of, list_by, terms_in, way_by};
ghost use Rattle.sp_variant.specs.Rows.{longer, with_one_more};

use sp_conv::{above, shifted};
use sp_fact::signature::Equation;
use sp_term::term::{Name, Term, copied, nesting_over};
use sp_unify::unify::mgu;
use std::alloc::{AllocError, Global};
use std::rc::Rc;

/// What was chosen so far.
#[derive(Drop)]
pub struct Chosen {
    /// the pairs of terms that it makes the same, the newest first
    pub pairs: Vec<(Term, Term)>,
    /// a number above that of each variable
    pub next: u128,
}

/// A way to make a value.
#[derive(Drop)]
pub struct Way<T> {
    /// the value
    pub value: T,
    /// what is chosen on the way
    pub chosen: Chosen,
}

/// The sum; one that doesn't fit is want of memory.
pub fn sum(first: u128, second: u128) -> Result<u128, AllocError>
    ensures { IfOk result (λ n. n ≡ first + second) }
{
    match first.checked_add(second) {
        Some(number) => Ok(number),
        None => Err(AllocError),
    }
}

/// Puts equal pairs at the end.
fn push_pairs(pairs: &mut Vec<(Term, Term)>, others: &Vec<(Term, Term)>) -> Result<(), AllocError>
    ensures { OnOk result (map pair_view pairs.new.items ≡ map pair_view pairs.old.items ++ map pair_view others.now.items) }
{
    for (left, right) in others {
        pairs.push((left.clone()?, right.clone()?))?;
    }
    Ok(())
}

impl Clone for Chosen {
    ghost is_clone = { λ s t. chosen_of t ≡ chosen_of s };

    fn clone(&self) -> Result<Chosen, AllocError> {
        let mut pairs = Vec::with_capacity(*self.pairs.allocator(), self.pairs.len())?;
        push_pairs(&mut pairs, &self.pairs)?;
        Ok(Chosen {
            pairs,
            next: self.next,
        })
    }
}

/// The pair before the others.
fn with_pair(
    alloc: Global,
    left: Term,
    right: Term,
    others: &Vec<(Term, Term)>,
) -> Result<Vec<(Term, Term)>, AllocError>
    ensures { IfOk result (λ ps. map pair_view ps.items ≡ (view left, view right) ∷ map pair_view others.now.items) }
{
    let mut pairs = Vec::new(alloc);
    pairs.push((left, right))?;
    push_pairs(&mut pairs, others)?;
    Ok(pairs)
}

/// The number that stands next after the variables of the equation, moved up to this one.
fn behind(next: u128, equation: &Equation) -> Result<u128, AllocError>
    ensures { IfOk result (λ n. n ≡ next + (above (view equation.now.left) + above (view equation.now.right))) }
{
    let left = above(&equation.left)?;
    let right = above(&equation.right)?;
    let both = sum(left, right)?;
    sum(next, both)
}

/// The one way that chooses nothing more.
fn as_it_is(alloc: Global, term: &Term, chosen: &Chosen) -> Result<Vec<Way<Term>>, AllocError>
    ensures { IfOk result (λ ws. map (way_by view) ws.items ≡ (view term.now, chosen_of chosen.now) ∷ []) }
{
    let value = term.clone()?;
    let chosen = chosen.clone()?;
    let mut ways = Vec::new(alloc);
    ways.push(Way { value, chosen })?;
    Ok(ways)
}

/// Puts at the end the way on which the equation is used at the term's root, if it can be with what was chosen.
fn push_by_equation(
    alloc: Global,
    ways: &mut Vec<Way<Term>>,
    term: &Term,
    chosen: &Chosen,
    equation: &Equation,
) -> Result<(), AllocError>
    ensures { OnOk result (map (way_by view) ways.new.items
        ≡ map (way_by view) ways.old.items ++ spec.by_equation (view term.now) (chosen_of chosen.now) (equation_of equation.now)) }
{
    let left = shifted(alloc, chosen.next, &equation.left)?;
    let pairs = with_pair(alloc, term.clone()?, left, &chosen.pairs)?;
    if mgu(alloc, &pairs)?.is_none() {
        return Ok(());
    }
    let value = shifted(alloc, chosen.next, &equation.right)?;
    let next = behind(chosen.next, equation)?;
    ways.push(Way {
        value,
        chosen: Chosen { pairs, next },
    })?;
    Ok(())
}

/// The term as it is, and each equation used at its root.
fn choices(
    alloc: Global,
    equations: &Vec<Equation>,
    term: &Term,
    chosen: &Chosen,
) -> Result<Vec<Way<Term>>, AllocError>
    ensures { IfOk result (λ ws. map (way_by view) ws.items
        ≡ spec.choices (map equation_of equations.now.items) (view term.now) (chosen_of chosen.now)) }
{
    let mut ways = as_it_is(alloc, term, chosen)?;
    for equation in equations {
        push_by_equation(alloc, &mut ways, term, chosen, equation)?;
    }
    Ok(ways)
}

/// The symbol over these terms.
fn application(alloc: Global, symbol: &Name, terms: Vec<Term>) -> Result<Term, AllocError>
    ensures { IfOk result (λ t. view t ≡ app (name_of symbol.now) (view_all terms.items)) }
{
    let name = symbol.clone()?;
    let nesting = nesting_over(&terms)?;
    let shared = Rc::new(alloc, terms)?;
    Ok(Term::App(name, shared, nesting))
}

/// The choices at the symbol over each of these rows of terms.
fn at_root(
    alloc: Global,
    equations: &Vec<Equation>,
    symbol: &Name,
    rows: Vec<Way<Vec<Term>>>,
) -> Result<Vec<Way<Term>>, AllocError>
    ensures { IfOk result (λ ws. map (way_by view) ws.items
        ≡ flat_map (λ r. spec.choices (map equation_of equations.now.items) (app (name_of symbol.now) r.0) r.1) (map (way_by terms_in) rows.items)) }
{
    let mut ways = Vec::new(alloc);
    for row in rows {
        let Way { value, chosen } = row;
        let term = application(alloc, symbol, value)?;
        let mut found = choices(alloc, equations, &term, &chosen)?;
        ways.append(&mut found)?;
    }
    Ok(ways)
}

/// The terms with one more at the end.
fn with_last(before: &Vec<Term>, last: Term) -> Result<Vec<Term>, AllocError>
    ensures { IfOk result (λ ts. list_by view ts ≡ list_by view before.now ++ view last ∷ []) }
{
    let mut terms = copied(before)?;
    terms.push(last)?;
    Ok(terms)
}

/// Puts at the end these terms with one more, in each of its ways.
fn push_longer(
    alloc: Global,
    rows: &mut Vec<Way<Vec<Term>>>,
    before: &Vec<Term>,
    found: Vec<Way<Term>>,
) -> Result<(), AllocError>
    ensures { OnOk result (map (way_by (list_by view)) rows.new.items
        ≡ map (way_by (list_by view)) rows.old.items ++ with_one_more (map view before.now.items) (map (way_by view) found.items)) }
{
    for way in found {
        let Way { value, chosen } = way;
        let value = with_last(before, value)?;
        rows.push(Way { value, chosen })?;
    }
    Ok(())
}

/// The row that has nothing yet.
pub fn empty<T: Drop>(alloc: Global, chosen: &Chosen) -> Result<Way<Vec<T>>, AllocError>
    ensures row { IfOk result (λ w. w.value.items ≡ []) }
    ensures way { IfOk result (λ w. chosen_of w.chosen ≡ chosen_of chosen.now) }
{
    let chosen = chosen.clone()?;
    let value = Vec::new(alloc);
    Ok(Way { value, chosen })
}

/// All ways to narrow the term: its arguments from left to right, then its root.
#[cycle(narrow)]
fn narrow(
    alloc: Global,
    term: &Term,
    equations: &Vec<Equation>,
    chosen: &Chosen,
) -> Result<Vec<Way<Term>>, AllocError>
    ensures { IfOk result (λ ws. map (way_by view) ws.items
        ≡ spec.narrow (map equation_of equations.now.items) (view term.now) (chosen_of chosen.now)) }
{
    match term {
        Term::App(symbol, terms, _) => {
            let rows = narrow_all(alloc, terms, equations, chosen)?;
            let ways = at_root(alloc, equations, symbol, rows)?;
            Ok(ways)
        }
        _ => as_it_is(alloc, term, chosen),
    }
}

/// All ways to narrow the terms, one after the other.
#[cycle(narrow)]
pub fn narrow_all(
    alloc: Global,
    terms: &Vec<Term>,
    equations: &Vec<Equation>,
    chosen: &Chosen,
) -> Result<Vec<Way<Vec<Term>>>, AllocError>
    ensures { IfOk result (λ ws. map (way_by terms_in) ws.items
        ≡ spec.narrow_all (map equation_of equations.now.items) (view_all terms.now.items) (chosen_of chosen.now)) }
{
    let mut rows = Vec::new(alloc);
    rows.push(empty(alloc, chosen)?)?;
    for term in terms {
        rows = longer(alloc, term, equations, rows)?;
    }
    Ok(rows)
}

/// The rows, each with the term at its end, in all ways to narrow it.
#[cycle(narrow)]
fn longer(
    alloc: Global,
    term: &Term,
    equations: &Vec<Equation>,
    rows: Vec<Way<Vec<Term>>>,
) -> Result<Vec<Way<Vec<Term>>>, AllocError>
    ensures { IfOk result (λ ws. map (way_by (list_by view)) ws.items
        ≡ longer (spec.narrow (map equation_of equations.now.items) (view term.now)) (map (way_by (list_by view)) rows.items)) }
{
    let mut made = Vec::new(alloc);
    for row in &rows {
        let found = narrow(alloc, term, equations, &row.chosen)?;
        push_longer(alloc, &mut made, &row.value, found)?;
    }
    Ok(made)
}
