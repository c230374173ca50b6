// The symbols of a theory and its equations.

ghost use Rattle.std.specs.Prelude.{◌≡◌, [], IfOk, false};
ghost use Rattle.sp_spec.specs.Term.{app, none, more};
ghost use Rattle.sp_spec.specs.Signature.{msg, pair, with_pairs};
ghost use Rattle.sp_term.specs.View.{view, view_all};
ghost use Rattle.sp_fact.specs.GroundView.{signature_of, symbol_of, equation_of};

use sp_term::term::{Name, Sort, Term, Variable, nesting_over};
use std::alloc::{AllocError, Global};
use std::rc::Rc;

/// A symbol of a signature.
#[derive(Drop)]
pub struct Symbol {
    /// its name
    pub name: Name,
    /// how many arguments it takes
    pub arity: usize,
    /// whether the adversary may not apply it
    pub private: bool,
}

/// An equation, read from left to right.
#[derive(Drop)]
pub struct Equation {
    /// the left side
    pub left: Term,
    /// the right side
    pub right: Term,
}

/// Symbols, and equations over them.
#[derive(Drop)]
pub struct Signature {
    /// the symbols, in their written order
    pub symbols: Vec<Symbol>,
    /// the equations, in their written order
    pub equations: Vec<Equation>,
}

/// The variable of this number, of sort msg.
fn message(number: u128) -> Term
    ensures { view result ≡ msg number }
{
    Term::Var(Variable {
        sort: Sort::Msg,
        number,
    })
}

/// The symbol over these arguments.
fn application(alloc: Global, symbol: &str, args: Vec<Term>) -> Result<Term, AllocError>
    ensures { IfOk result (λ t. view t ≡ app symbol.now (view_all args.items)) }
{
    let name = Name::new(alloc, symbol)?;
    let nesting = nesting_over(&args)?;
    let shared = Rc::new(alloc, args)?;
    Ok(Term::App(name, shared, nesting))
}

/// The symbol over the pair of the first two variables, and what that equals.
fn of_pair(alloc: Global, symbol: &str, right: Term) -> Result<Equation, AllocError>
    ensures { IfOk result (λ e. equation_of e ≡ record { left = app symbol.now (more (pair (msg 0) (msg 1)) none); right = view right }) }
{
    let mut parts = Vec::new(alloc);
    parts.push(message(0))?;
    parts.push(message(1))?;
    let mut args = Vec::new(alloc);
    args.push(application(alloc, "pair", parts)?)?;
    let left = application(alloc, symbol, args)?;
    Ok(Equation { left, right })
}

/// A public symbol.
fn public(alloc: Global, name: &str, arity: usize) -> Result<Symbol, AllocError>
    ensures { IfOk result (λ s. symbol_of s ≡ record { name = name.now; arity = arity; private = false }) }
{
    let name = Name::new(alloc, name)?;
    Ok(Symbol {
        name,
        arity,
        private: false,
    })
}

impl Signature {
    /// The symbols and equations of pairs alone, which belong to every theory.
    pub fn pairs(alloc: Global) -> Result<Signature, AllocError>
        ensures { IfOk result (λ s. signature_of s ≡ with_pairs [] []) }
    {
        let mut symbols = Vec::new(alloc);
        symbols.push(public(alloc, "pair", 2)?)?;
        symbols.push(public(alloc, "fst", 1)?)?;
        symbols.push(public(alloc, "snd", 1)?)?;
        let mut equations = Vec::new(alloc);
        equations.push(of_pair(alloc, "fst", message(0))?)?;
        equations.push(of_pair(alloc, "snd", message(1))?)?;
        Ok(Signature { symbols, equations })
    }
}
