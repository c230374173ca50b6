// Terms over leaves of any kind, and what is done to them without any theory.

ghost use Rattle.std.specs.Prelude.{◌≡◌, ◌≤◌, ◌+◌, ◌↔◌, IfOk, IsTrue, Bool, MatchResult, map};
ghost use Rattle.std.specs.Bool.{Decides};
ghost use Rattle.sp_spec.specs.Term as spec;
ghost use Rattle.sp_spec.specs.Same.{same_variable, no_test, same_by, same_all_by};
ghost use Rattle.sp_spec.specs.Matching.{has_sort_by, variable_has_sort, never_has_sort};
ghost use Rattle.sp_spec.proofs.Same.{same_variable_decides, no_test_decides};
ghost use Rattle.sp_term.specs.View.{sort_of, name_of, variable_of, never_of, view_by, view_all_by, nesting_of, deepest};
ghost use Rattle.sp_term.specs.LeafLaws.{variable_tests};

use std::alloc::{AllocError, Global};
use std::convert::Infallible;
use std::fmt;
use std::rc::{Rc, RcStr};

/// The sort of a variable; fresh and pub are subsorts of msg.
#[derive(Clone, Copy, Debug, PartialEq, Eq)]
pub enum Sort {
    /// any message
    Msg,
    /// a fresh name
    Fresh,
    /// a public name
    Pub,
}

/// A variable of a rule or of a system.
#[derive(Clone, Copy, Debug, PartialEq, Eq)]
pub struct Variable {
    /// what it ranges over
    pub sort: Sort,
    /// message variables and times share the numbers
    pub number: u128,
}

/// The name of a symbol, of a public constant, of a fact or of a rule; copies share the text.
#[derive(Debug, PartialEq, Eq, Drop)]
pub struct Name {
    /// the name's bytes
    pub text: RcStr,
}

impl Name {
    /// The name with this text.
    pub fn new(alloc: Global, text: &str) -> Result<Name, AllocError>
        ensures { IfOk result (λ n. name_of n ≡ text.now) }
    {
        let text = RcStr::from_str(alloc, text)?;
        Ok(Name { text })
    }
}

impl Clone for Name {
    ghost is_clone = { λ m n. name_of n ≡ name_of m };

    fn clone(&self) -> Result<Name, AllocError> {
        let text = self.text.clone()?;
        Ok(Name { text })
    }
}

/// What may stand at the leaves of a term, beside names.
pub trait Leaf: Copy + PartialEq + Drop {
    /// what a leaf stands for
    ghost Kind: { Type 0 };

    ghost leaf_of: { Self → Kind };

    /// whether two of them are one
    ghost test: { Kind → Kind → Bool };

    /// which sorts one is of, below that of all messages
    ghost of_sort: { spec.Sort → Kind → Bool };

    /// Whether a term over such leaves is of the sort.
    fn term_has_sort(sort: Sort, term: &Term<Self>) -> bool
        ensures { result ≡ has_sort_by of_sort (sort_of sort) (view_by leaf_of term.now) };

    ghost tests: { (x y : Self) → Self.eq x y ≡ test (leaf_of x) (leaf_of y) };

    ghost decides: { (x y : Kind) → Decides (test x y) (x ≡ y) };
}

/// A leaf that is a `T`; `Infallible` has no values, so that a term over such leaves has none.
#[derive(Clone, Copy, PartialEq, Eq)]
pub struct Only<T> {
    /// the leaf
    pub leaf: T,
}

/// No leaf: there is no value of this type.
pub type Never = Only<Infallible>;

impl<T> fmt::Debug for Only<T> {
    fn fmt<W: fmt::Write>(&self, f: &mut fmt::Formatter<W>) -> fmt::Result {
        f.write_str("leaf")
    }
}

/// A message term over leaves of a kind: over variables one of a rule or of a system.
#[derive(Drop)]
pub enum Term<L = Variable> {
    /// a variable, or another leaf
    Var(L),
    /// a public name
    Constant(Name),
    /// a fresh name, by its number
    FreshName(u128),
    /// a symbol over arguments, and how deep the term nests
    App(Name, Rc<Vec<Term<L>>>, u32),
}

/// How deep terms may nest. One that would nest deeper is want of memory, so that whatever goes down a term stays within the stack.
pub const MOST_NESTED: u32 = 10_000;

impl Leaf for Variable {
    ghost Kind = { spec.Variable };

    ghost leaf_of = { variable_of };

    ghost test = { same_variable };

    ghost of_sort = { variable_has_sort };

    fn term_has_sort(sort: Sort, term: &Term) -> bool {
        match (sort, term) {
            (Sort::Msg, _) => true,
            (_, Term::Var(x)) => sort == x.sort,
            (Sort::Fresh, Term::FreshName(_)) => true,
            (Sort::Pub, Term::Constant(_)) => true,
            _ => false,
        }
    }

    ghost tests = { variable_tests };

    ghost decides = { same_variable_decides };
}

impl Leaf for Never {
    ghost Kind = { ⊥ };

    ghost leaf_of = { never_of };

    ghost test = { no_test };

    ghost of_sort = { never_has_sort };

    fn term_has_sort(sort: Sort, term: &Term<Never>) -> bool {
        match (sort, term) {
            (Sort::Msg, _) => true,
            (Sort::Fresh, Term::FreshName(_)) => true,
            (Sort::Pub, Term::Constant(_)) => true,
            _ => false,
        }
    }

    ghost tests = { λ x y. absurd (never_of x) };

    ghost decides = { no_test_decides };
}

/// How deep the term nests: 0 where it is no application.
fn nesting<L>(term: &Term<L>) -> u32
    ensures { result ≡ nesting_of term.now }
{
    match term {
        Term::App(_, _, nesting) => *nesting,
        _ => 0,
    }
}

/// How deep a symbol over these terms nests.
///
/// # Errors
///
/// `AllocError` where it would nest deeper than terms may.
pub fn nesting_over<L>(terms: &Vec<Term<L>>) -> Result<u32, AllocError>
    ensures { MatchResult result (λ n. n ≡ deepest (map nesting_of terms.now.items) + 1) (λ e. MOST_NESTED ≤ deepest (map nesting_of terms.now.items)) }
{
    let mut most: u32 = 0;
    for term in terms {
        let depth = nesting(term);
        if depth > most {
            most = depth;
        }
    }
    if most < MOST_NESTED {
        Ok(most + 1)
    } else {
        Err(AllocError)
    }
}

/// Whether two terms are the same.
pub fn same<L: Leaf>(a: &Term<L>, b: &Term<L>) -> bool
    ensures tests { result ≡ same_by L.test (view_by L.leaf_of a.now) (view_by L.leaf_of b.now) }
    ensures tells { IsTrue result ↔ (view_by L.leaf_of a.now ≡ view_by L.leaf_of b.now) }
{
    same_tree(a, b)
}

#[cycle(same)]
fn same_tree<L: Leaf>(a: &Term<L>, b: &Term<L>) -> bool
    ensures { result ≡ same_by L.test (view_by L.leaf_of a.now) (view_by L.leaf_of b.now) }
{
    match (a, b) {
        (Term::Var(x), Term::Var(y)) => *x == *y,
        (Term::Constant(x), Term::Constant(y)) => *x == *y,
        (Term::FreshName(x), Term::FreshName(y)) => *x == *y,
        (Term::App(f, xs, _), Term::App(g, ys, _)) => *f == *g && all_same(xs, ys),
        _ => false,
    }
}

/// Whether the terms at each place are the same, and as many.
#[cycle(same)]
pub fn all_same<L: Leaf>(xs: &Vec<Term<L>>, ys: &Vec<Term<L>>) -> bool
    ensures { result ≡ same_all_by L.test (view_all_by L.leaf_of xs.now.items) (view_all_by L.leaf_of ys.now.items) }
{
    if xs.len() != ys.len() {
        return false;
    }
    for (x, y) in xs.iter().zip(ys) {
        if !same_tree(x, y) {
            return false;
        }
    }
    true
}

// The names and the argument lists of a copy are shared with the term.
impl<L: Leaf> Clone for Term<L> {
    ghost is_clone = { λ s t. view_by L.leaf_of t ≡ view_by L.leaf_of s };

    fn clone(&self) -> Result<Term<L>, AllocError> {
        match self {
            Term::Var(x) => Ok(Term::Var(*x)),
            Term::Constant(name) => Ok(Term::Constant(name.clone()?)),
            Term::FreshName(n) => Ok(Term::FreshName(*n)),
            Term::App(symbol, terms, nesting) => {
                let name = symbol.clone()?;
                let shared = terms.clone()?;
                Ok(Term::App(name, shared, *nesting))
            }
        }
    }
}

/// Equal terms: `clone` by what the terms stand for.
#[tactic(auto, using(crate::proofs::Cloned::cloned))]
pub fn copied<L: Leaf>(terms: &Vec<Term<L>>) -> Result<Vec<Term<L>>, AllocError>
    ensures each { IfOk result (λ ts. map (view_by L.leaf_of) ts.items ≡ map (view_by L.leaf_of) terms.now.items) }
    ensures all { IfOk result (λ ts. view_all_by L.leaf_of ts.items ≡ view_all_by L.leaf_of terms.now.items) }
{
    let made = terms.clone()?;
    Ok(made)
}

/// Whether the term is of the sort: a fresh name of fresh, a public name of pub, any of msg; a variable of its own.
pub fn has_sort<L: Leaf>(sort: Sort, term: &Term<L>) -> bool
    ensures { result ≡ has_sort_by L.of_sort (sort_of sort) (view_by L.leaf_of term.now) }
{
    L::term_has_sort(sort, term)
}
