// Matching of a pattern with a term, over leaves of any two kinds.

ghost use Rattle.std.specs.Prelude.{◌≡◌, IfOk, Option};
ghost use Rattle.sp_spec.specs.Term as spec;
ghost use Rattle.sp_spec.specs.Matching.{matched_by, matched_all_by};
ghost use Rattle.sp_term.specs.Bindings.{answer, are_one_name};
ghost use Rattle.sp_term.specs.View.{view_by, view_all_by};

use crate::term::Term;
use std::alloc::AllocError;

/// What a leaf of a pattern may stand for, as far as is known.
pub trait Binds<L, M> {
    /// what the leaves stand for, those of the pattern and those of the term
    ghost From: { Type 0 };

    ghost To: { Type 0 };

    ghost from_of: { L → From };

    ghost to_of: { M → To };

    /// the bindings, and how a leaf beside a term adds to them
    ghost Bindings: { Type 0 };

    ghost bindings: { Self → Bindings };

    ghost bound_by: { From → spec.Term To → Bindings → Option Bindings };

    /// Adds what the leaf beside the term wants; what is bound after a `false` is not said.
    fn bind(&mut self, leaf: &L, term: &Term<M>) -> Result<bool, AllocError>
        ensures { IfOk result (λ b. answer b (bindings self.new) ≡ bound_by (from_of leaf.now) (view_by to_of term.now) (bindings self.old)) };
}

/// Adds the bindings that the pattern wants beside the term.
#[cycle(matching)]
pub fn extend<L, M, B: Binds<L, M>>(
    pattern: &Term<L>,
    term: &Term<M>,
    found: &mut B,
) -> Result<bool, AllocError>
    ensures { IfOk result (λ b. answer b (B.bindings found.new) ≡ matched_by B.bound_by (view_by B.from_of pattern.now) (view_by B.to_of term.now) (B.bindings found.old)) }
{
    match pattern {
        Term::Var(x) => found.bind(x, term),
        Term::App(f, patterns, _) => match term {
            Term::App(g, terms, _) if *f == *g => extend_all(patterns, terms, found),
            _ => Ok(false),
        },
        _ => Ok(is_one_name::<L, M, B>(pattern, term)),
    }
}

/// Whether the two are one name, public or fresh.
fn is_one_name<L, M, B: Binds<L, M>>(pattern: &Term<L>, term: &Term<M>) -> bool
    ensures { result ≡ are_one_name (view_by B.from_of pattern.now) (view_by B.to_of term.now) }
{
    match (pattern, term) {
        (Term::Constant(c), Term::Constant(d)) => *c == *d,
        (Term::FreshName(m), Term::FreshName(n)) => *m == *n,
        _ => false,
    }
}

/// Adds the bindings that the patterns want beside the terms, one beside each; what was added stays where the answer is no.
#[cycle(matching)]
pub fn extend_all<L, M, B: Binds<L, M>>(
    patterns: &Vec<Term<L>>,
    terms: &Vec<Term<M>>,
    found: &mut B,
) -> Result<bool, AllocError>
    ensures { IfOk result (λ b. answer b (B.bindings found.new)
        ≡ matched_all_by B.bound_by (view_all_by B.from_of patterns.now.items) (view_all_by B.to_of terms.now.items) (B.bindings found.old)) }
{
    for (pattern, term) in patterns.iter().zip(terms) {
        if !extend(pattern, term, found)? {
            return Ok(false);
        }
    }
    Ok(patterns.len() == terms.len())
}
