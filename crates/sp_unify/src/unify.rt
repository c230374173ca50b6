// The most general unifier, one difference after another.

ghost use Rattle.std.specs.Prelude.{◌≡◌, IfOk, MatchOption, map, option_map};
ghost use Rattle.sp_spec.specs.Term as spec_term;
ghost use Rattle.sp_spec.specs.Term.{var};
ghost use Rattle.sp_spec.specs.Same.{same_variable};
ghost use Rattle.sp_spec.specs.Unifier.{difference, differences, first_difference, with_term, with_variable};
ghost use Rattle.sp_spec.specs.Unifier as spec;
ghost use Rattle.sp_law_unify.specs.MostGeneral.{HaveNoSolution, IsMostGeneral};
ghost use Rattle.sp_term.specs.View.{variable_of, view, view_all};
ghost use Rattle.sp_term.specs.Bindings.{bindings};
ghost use Rattle.sp_unify.specs.View.{found_of, pair_view, step_of};

use sp_term::leaves::{Tests, some_leaf};
use sp_term::subst::{Subst, apply};
use sp_term::term::{Sort, Term, Variable};
use std::alloc::{AllocError, Global};

// The first difference of two terms.
#[derive(Drop)]
enum Found<'a> {
    Same,
    Clash,
    Bind(Variable, &'a Term),
}

// What is to be done with pairs of terms.
#[derive(Drop)]
enum Step {
    Done,
    Fails,
    Binds(Variable, Term),
}

// Whether a leaf is the variable.
#[derive(Clone, Copy)]
struct Is {
    variable: Variable,
}

impl Tests<Variable> for Is {
    ghost Kind = { spec_term.Variable };

    ghost leaf_of = { variable_of };

    ghost test_of = { λ t. same_variable (variable_of t.variable) };

    fn passes(&self, leaf: &Variable) -> bool {
        self.variable == *leaf
    }
}

/// The most general unifier of the pairs, by sorts; none exactly where no values of the variables' sorts make each pair the same.
///
/// # Errors
///
/// `AllocError` where memory is wanting.
pub fn mgu(alloc: Global, pairs: &[(Term, Term)]) -> Result<Option<Subst>, AllocError>
    ensures found { IfOk result (λ r. option_map bindings r ≡ spec.mgu (map pair_view pairs.now)) }
    ensures means { IfOk result (λ r. MatchOption r (HaveNoSolution (map pair_view pairs.now))
        (λ s. IsMostGeneral (map pair_view pairs.now) (bindings s))) }
{
    let mut subst = Subst::new(alloc);
    loop {
        match next_step(alloc, &subst, pairs)? {
            Step::Done => return Ok(Some(subst)),
            Step::Fails => return Ok(None),
            Step::Binds(variable, term) => {
                let mut next = Subst::new(alloc);
                next.push(variable, term)?;
                subst = subst.then(alloc, next)?;
            }
        }
    }
}

fn next_step(alloc: Global, subst: &Subst, pairs: &[(Term, Term)]) -> Result<Step, AllocError>
    ensures { IfOk result (λ s. step_of s ≡ first_difference (bindings subst.now) (map pair_view pairs.now)) }
{
    for (left, right) in pairs {
        let left = apply(alloc, subst, left)?;
        let right = apply(alloc, subst, right)?;
        match difference_of(&left, &right) {
            Found::Same => {}
            Found::Clash => return Ok(Step::Fails),
            Found::Bind(variable, term) => return Ok(Step::Binds(variable, term.clone()?)),
        }
    }
    Ok(Step::Done)
}

#[cycle(difference)]
fn difference_of<'a>(a: &'a Term, b: &'a Term) -> Found<'a>
    ensures { found_of result ≡ difference (view a.now) (view b.now) }
{
    match (a, b) {
        (Term::Var(x), Term::Var(y)) => of_two(*x, *y, a, b),
        (Term::Var(x), _) => value_for(*x, b),
        (_, Term::Var(y)) => value_for(*y, a),
        (Term::Constant(c), Term::Constant(d)) => {
            if *c == *d { Found::Same } else { Found::Clash }
        }
        (Term::FreshName(m), Term::FreshName(n)) => {
            if *m == *n { Found::Same } else { Found::Clash }
        }
        (Term::App(f, ts, _), Term::App(g, us, _)) => {
            if *f == *g {
                differences_of(ts, us)
            } else {
                Found::Clash
            }
        }
        _ => Found::Clash,
    }
}

#[cycle(difference)]
fn differences_of<'a>(ts: &'a Vec<Term>, us: &'a Vec<Term>) -> Found<'a>
    ensures { found_of result ≡ differences (view_all ts.now.items) (view_all us.now.items) }
{
    for (t, u) in ts.iter().zip(us) {
        match difference_of(t, u) {
            Found::Same => {}
            found => return found,
        }
    }
    if ts.len() == us.len() {
        Found::Same
    } else {
        Found::Clash
    }
}

// Two variables; a and b are the terms that they are.
fn of_two<'a>(x: Variable, y: Variable, a: &'a Term, b: &'a Term) -> Found<'a>
    requires left { view a.now ≡ var (variable_of x) }
    requires right { view b.now ≡ var (variable_of y) }
    ensures { found_of result ≡ with_variable (variable_of x) (variable_of y) }
{
    if x == y {
        return Found::Same;
    }
    match (x.sort, y.sort) {
        (Sort::Msg, Sort::Msg) | (Sort::Fresh, Sort::Fresh) | (Sort::Pub, Sort::Pub) => {
            if x.number < y.number {
                Found::Bind(y, a)
            } else {
                Found::Bind(x, b)
            }
        }
        (Sort::Msg, _) => Found::Bind(x, b),
        (_, Sort::Msg) => Found::Bind(y, a),
        _ => Found::Clash,
    }
}

// A variable beside a term that is none.
fn value_for<'a>(x: Variable, term: &'a Term) -> Found<'a>
    ensures { found_of result ≡ with_term (variable_of x) (view term.now) }
{
    let stands = match (x.sort, term) {
        (Sort::Msg, _) => true,
        (Sort::Fresh, Term::FreshName(_)) => true,
        (Sort::Pub, Term::Constant(_)) => true,
        _ => false,
    };
    if stands && !some_leaf(&Is { variable: x }, term) {
        Found::Bind(x, term)
    } else {
        Found::Clash
    }
}
