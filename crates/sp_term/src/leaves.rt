// What is asked of each leaf of a term.

ghost use Rattle.std.specs.Prelude.{◌≡◌, Bool};
ghost use Rattle.sp_spec.specs.Term.{each_variable, each_variables, some_variable, some_variables};
ghost use Rattle.sp_term.specs.View.{view_by, view_all_by};

use crate::term::Term;

/// A test of leaves.
pub trait Tests<L> {
    /// what the leaves stand for
    ghost Kind: { Type 0 };

    ghost leaf_of: { L → Kind };

    ghost test_of: { Self → Kind → Bool };

    /// Whether the leaf passes.
    fn passes(&self, leaf: &L) -> bool
        ensures { result ≡ test_of self.now (leaf_of leaf.now) };
}

/// Whether each leaf of the term passes.
#[cycle(each)]
pub fn each_leaf<L, T: Tests<L>>(test: &T, term: &Term<L>) -> bool
    ensures { result ≡ each_variable (T.test_of test.now) (view_by T.leaf_of term.now) }
{
    match term {
        Term::Var(leaf) => test.passes(leaf),
        Term::Constant(_) | Term::FreshName(_) => true,
        Term::App(_, terms, _) => each_leaf_of_all(test, terms),
    }
}

/// Whether each leaf of the terms passes.
#[cycle(each)]
pub fn each_leaf_of_all<L, T: Tests<L>>(test: &T, terms: &Vec<Term<L>>) -> bool
    ensures { result ≡ each_variables (T.test_of test.now) (view_all_by T.leaf_of terms.now.items) }
{
    for term in terms {
        if !each_leaf(test, term) {
            return false;
        }
    }
    true
}

/// Whether a leaf of the term passes.
#[cycle(some)]
pub fn some_leaf<L, T: Tests<L>>(test: &T, term: &Term<L>) -> bool
    ensures { result ≡ some_variable (T.test_of test.now) (view_by T.leaf_of term.now) }
{
    match term {
        Term::Var(leaf) => test.passes(leaf),
        Term::Constant(_) | Term::FreshName(_) => false,
        Term::App(_, terms, _) => some_leaf_of_one(test, terms),
    }
}

/// Whether a leaf of one of the terms passes.
#[cycle(some)]
pub fn some_leaf_of_one<L, T: Tests<L>>(test: &T, terms: &Vec<Term<L>>) -> bool
    ensures { result ≡ some_variables (T.test_of test.now) (view_all_by T.leaf_of terms.now.items) }
{
    for term in terms {
        if some_leaf(test, term) {
            return true;
        }
    }
    false
}
