// Terms for variables, as lists of bindings: substitutions, and values.

ghost use Rattle.std.specs.Prelude.{◌≡◌, [], ◌∷◌, ◌++◌, List, IfOk, OnOk, option_map};
ghost use Rattle.sp_spec.specs.Term as spec;
ghost use Rattle.sp_spec.specs.Term.{valued, valued_all};
ghost use Rattle.sp_spec.specs.Substitution.{lookup, bound_to, followed_by};
ghost use Rattle.sp_spec.specs.Matching.{bound_by};
ghost use Rattle.sp_term.specs.Bindings.{bindings, bindings_by};
ghost use Rattle.sp_term.specs.View.{variable_of, view, view_by, view_all};

use crate::apply::Assigns;
pub use crate::apply::{apply, apply_all};
use crate::matching::Binds;
use crate::term::{Leaf, Never, Term, Variable, has_sort, same};
use std::alloc::{AllocError, Global};

/// A variable and the term that is put for it.
#[derive(Drop)]
pub struct Binding<M> {
    /// the variable
    pub variable: Variable,
    /// what stands for it
    pub term: Term<M>,
}

/// Terms for variables; of several bindings the first counts.
#[derive(Drop)]
pub struct Bindings<M> {
    /// the bindings, in the order in which they were made
    pub bindings: Vec<Binding<M>>,
}

/// A substitution: a variable without a binding stays as it is.
pub type Subst = Bindings<Variable>;

/// Values for variables: one without a binding has some value of its sort.
pub type Values = Bindings<Never>;

impl<M: Leaf> Bindings<M> {
    /// No binding.
    pub fn new(alloc: Global) -> Bindings<M>
        ensures { bindings_by M.leaf_of result ≡ [] }
    {
        Bindings {
            bindings: Vec::new(alloc),
        }
    }

    /// The term that a variable is bound to.
    pub fn get(&self, variable: Variable) -> Option<&Term<M>>
        ensures { option_map (λ t. view_by M.leaf_of t.now) result ≡ lookup (bindings_by M.leaf_of self.now) (variable_of variable) }
    {
        for binding in &self.bindings {
            if binding.variable == variable {
                return Some(&binding.term);
            }
        }
        None
    }

    /// One more binding, after the others.
    pub fn push(&mut self, variable: Variable, term: Term<M>) -> Result<(), AllocError>
        ensures { OnOk result (bindings_by M.leaf_of self.new ≡ bindings_by M.leaf_of self.old ++ (variable_of variable, view_by M.leaf_of term) ∷ []) }
    {
        self.bindings.push(Binding { variable, term })?;
        Ok(())
    }
}

impl<M: Leaf> Binds<Variable, M> for Bindings<M> {
    ghost From = { spec.Variable };

    ghost To = { M.Kind };

    ghost from_of = { variable_of };

    ghost to_of = { M.leaf_of };

    ghost Bindings = { List (spec.Variable × spec.Term M.Kind) };

    ghost bindings = { bindings_by M.leaf_of };

    ghost bound_by = { bound_by M.test M.of_sort };

    // A variable that is bound has to be bound to the same; another is bound, if the term is of its sort.
    fn bind(&mut self, variable: &Variable, term: &Term<M>) -> Result<bool, AllocError> {
        if let Some(bound) = self.get(*variable) {
            return Ok(same(bound, term));
        }
        if !has_sort(variable.sort, term) {
            return Ok(false);
        }
        self.push(*variable, term.clone()?)?;
        Ok(true)
    }
}

impl Assigns<Variable, Variable> for Subst {
    ghost From = { spec.Variable };

    ghost To = { spec.Variable };

    ghost from_of = { variable_of };

    ghost to_of = { variable_of };

    ghost value_of = { λ s. bound_to (bindings s) };

    fn value(&self, _alloc: Global, leaf: &Variable) -> Result<Term, AllocError> {
        match self.get(*leaf) {
            Some(term) => term.clone(),
            None => Ok(Term::Var(*leaf)),
        }
    }
}

impl Subst {
    /// First these bindings, then those of `next`.
    pub fn then(&self, alloc: Global, mut next: Subst) -> Result<Subst, AllocError>
        ensures { IfOk result (λ s. bindings s ≡ followed_by (bindings self.now) (bindings next)) }
    {
        let mut made = Subst::new(alloc);
        for binding in &self.bindings {
            made.push(binding.variable, apply(alloc, &next, &binding.term)?)?;
        }
        made.bindings.append(&mut next.bindings)?;
        Ok(made)
    }
}
