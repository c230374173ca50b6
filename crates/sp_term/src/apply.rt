// Terms with each leaf replaced.

ghost use Rattle.std.specs.Prelude.{◌≡◌, IfOk, Option, option_map};
ghost use Rattle.sp_spec.specs.Term as spec;
ghost use Rattle.sp_spec.specs.Term.{valued, valued_all, valued_where, valued_all_where};
ghost use Rattle.sp_term.specs.View.{view_by, view_all_by};

use crate::term::{Term, nesting_over};
use std::alloc::{AllocError, Global};
use std::rc::Rc;

/// A term over the leaves `M` for each leaf `L`.
pub trait Assigns<L, M> {
    /// what the leaves stand for, those of the term and those of the values
    ghost From: { Type 0 };

    ghost To: { Type 0 };

    ghost from_of: { L → From };

    ghost to_of: { M → To };

    ghost value_of: { Self → From → spec.Term To };

    /// What stands for the leaf.
    fn value(&self, alloc: Global, leaf: &L) -> Result<Term<M>, AllocError>
        ensures { IfOk result (λ t. view_by to_of t ≡ value_of self.now (from_of leaf.now)) };
}

/// The term with each leaf replaced.
#[cycle(apply)]
pub fn apply<L, M: Drop, F: Assigns<L, M>>(
    alloc: Global,
    values: &F,
    term: &Term<L>,
) -> Result<Term<M>, AllocError>
    ensures { IfOk result (λ t. view_by F.to_of t ≡ valued (F.value_of values.now) (view_by F.from_of term.now)) }
{
    match term {
        Term::Var(x) => values.value(alloc, x),
        Term::Constant(name) => Ok(Term::Constant(name.clone()?)),
        Term::FreshName(n) => Ok(Term::FreshName(*n)),
        Term::App(symbol, terms, _) => {
            let name = symbol.clone()?;
            let made = apply_all(alloc, values, terms)?;
            let nesting = nesting_over(&made)?;
            let shared = Rc::new(alloc, made)?;
            Ok(Term::App(name, shared, nesting))
        }
    }
}

/// The terms with each leaf replaced.
#[cycle(apply)]
pub fn apply_all<L, M: Drop, F: Assigns<L, M>>(
    alloc: Global,
    values: &F,
    terms: &Vec<Term<L>>,
) -> Result<Vec<Term<M>>, AllocError>
    ensures { IfOk result (λ ts. view_all_by F.to_of ts.items ≡ valued_all (F.value_of values.now) (view_all_by F.from_of terms.now.items)) }
{
    let mut made = Vec::with_capacity(alloc, terms.len())?;
    for term in terms {
        made.push(apply(alloc, values, term)?)?;
    }
    Ok(made)
}

/// A term over the leaves `M` for a leaf `L`, where it has one.
pub trait Resolves<L, M> {
    /// what the leaves stand for, those of the term and those of the values
    ghost From: { Type 0 };

    ghost To: { Type 0 };

    ghost from_of: { L → From };

    ghost to_of: { M → To };

    ghost value_of: { Self → From → Option (spec.Term To) };

    /// What stands for the leaf, if anything does.
    fn value_where(&self, alloc: Global, leaf: &L) -> Result<Option<Term<M>>, AllocError>
        ensures { IfOk result (λ o. option_map (view_by to_of) o ≡ value_of self.now (from_of leaf.now)) };
}

/// The term with each leaf replaced, if something stands for each.
#[cycle(resolve)]
pub fn resolve<L, M: Drop, F: Resolves<L, M>>(
    alloc: Global,
    values: &F,
    term: &Term<L>,
) -> Result<Option<Term<M>>, AllocError>
    ensures { IfOk result (λ o. option_map (view_by F.to_of) o ≡ valued_where (F.value_of values.now) (view_by F.from_of term.now)) }
{
    match term {
        Term::Var(x) => values.value_where(alloc, x),
        Term::Constant(name) => Ok(Some(Term::Constant(name.clone()?))),
        Term::FreshName(n) => Ok(Some(Term::FreshName(*n))),
        Term::App(symbol, terms, _) => {
            let Some(made) = resolve_all(alloc, values, terms)? else {
                return Ok(None);
            };
            let name = symbol.clone()?;
            let nesting = nesting_over(&made)?;
            let shared = Rc::new(alloc, made)?;
            Ok(Some(Term::App(name, shared, nesting)))
        }
    }
}

/// The terms with each leaf replaced, if something stands for each.
#[cycle(resolve)]
pub fn resolve_all<L, M: Drop, F: Resolves<L, M>>(
    alloc: Global,
    values: &F,
    terms: &Vec<Term<L>>,
) -> Result<Option<Vec<Term<M>>>, AllocError>
    ensures { IfOk result (λ o. option_map (λ ts. view_all_by F.to_of ts.items) o ≡ valued_all_where (F.value_of values.now) (view_all_by F.from_of terms.now.items)) }
{
    let mut made = Vec::with_capacity(alloc, terms.len())?;
    for term in terms {
        let Some(term) = resolve(alloc, values, term)? else {
            return Ok(None);
        };
        made.push(term)?;
    }
    Ok(Some(made))
}
