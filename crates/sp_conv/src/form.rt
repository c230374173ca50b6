// What an equation is like by itself; which symbols are destructors is told by all of them.

ghost use Rattle.std.specs.Prelude.{◌≡◌, map};
ghost use Rattle.sp_term.specs.View.{name_of, view, view_all};
ghost use Rattle.sp_fact.specs.GroundView.{equation_of, symbol_of};
ghost use Rattle.sp_conv.specs.Forms.{IsForm};
ghost use Rattle.sp_spec.specs.Same.{is_part, is_part_of_one};
ghost use Rattle.sp_conv.specs.Tests.{all_of_constructors, are_as_many, has_constant, have_form, is_application, is_constant, is_constructor, is_destructor, is_left_side, is_pair, is_proper_part, is_root, leads, names_constant, no_terms, of_constructors, some_root};

use sp_fact::signature::{Equation, Symbol};
use sp_term::term::{Name, Sort, Term, same};

/// What an equation is like by itself.
#[derive(Clone, Copy, Debug, PartialEq, Eq)]
pub enum Form {
    /// as it should be
    WellFormed,
    /// only that its right side is a constant that is private is wrong with it
    PrivateConstant,
    /// something else is wrong with it
    WrongShape,
}

fn no_terms(terms: &Vec<Term>) -> bool
    ensures { result ≡ no_terms (view_all terms.now.items) }
{
    terms.is_empty()
}

// Whether there are so many terms, one at least.
fn are_as_many(terms: &Vec<Term>, count: usize) -> bool
    ensures { result ≡ are_as_many count (view_all terms.now.items) }
{
    !no_terms(terms) && terms.len() == count
}

// Whether the term is this symbol over so many arguments, one at least.
fn is_application(name: &Name, count: usize, term: &Term) -> bool
    ensures { result ≡ is_application (name_of name.now) count (view term.now) }
{
    match term {
        Term::App(symbol, terms, _) => are_as_many(terms, count) && *symbol == *name,
        _ => false,
    }
}

// Whether the symbol stands at the root of a left side.
fn some_root(equations: &Vec<Equation>, name: &Name, count: usize) -> bool
    ensures { result ≡ some_root (map equation_of equations.now.items) (name_of name.now) count }
{
    for equation in equations {
        if is_application(name, count, &equation.left) {
            return true;
        }
    }
    false
}

fn is_pair(name: &Name) -> bool
    ensures { result ≡ is_pair (name_of name.now) }
{
    name.text.as_str() == "pair"
}

/// Whether the symbol, over so many arguments, is a destructor.
pub fn is_destructor(equations: &Vec<Equation>, name: &Name, count: usize) -> bool
    ensures { result ≡ is_destructor (map equation_of equations.now.items) (name_of name.now) count }
{
    !is_pair(name) && some_root(equations, name, count)
}

// Whether the symbol over these arguments is no destructor.
fn is_constructor(equations: &Vec<Equation>, name: &Name, terms: &Vec<Term>) -> bool
    ensures { result ≡ is_constructor (map equation_of equations.now.items) (name_of name.now) (view_all terms.now.items) }
{
    !is_destructor(equations, name, terms.len())
}

// Whether the term is of constructors: of variables of sort msg, and of symbols that are no destructors.
#[cycle(constructors)]
fn of_constructors(equations: &Vec<Equation>, term: &Term) -> bool
    ensures { result ≡ of_constructors (map equation_of equations.now.items) (view term.now) }
{
    match term {
        Term::Var(variable) => matches!(variable.sort, Sort::Msg),
        Term::Constant(_) | Term::FreshName(_) => false,
        Term::App(symbol, terms, _) => {
            is_constructor(equations, symbol, terms) && all_of_constructors(equations, terms)
        }
    }
}

#[cycle(constructors)]
fn all_of_constructors(equations: &Vec<Equation>, terms: &Vec<Term>) -> bool
    ensures { result ≡ all_of_constructors (map equation_of equations.now.items) (view_all terms.now.items) }
{
    for term in terms {
        if !of_constructors(equations, term) {
            return false;
        }
    }
    true
}

// Whether the symbol over these arguments may be a left side.
fn is_root(name: &Name, terms: &Vec<Term>) -> bool
    ensures { result ≡ is_root (name_of name.now) (view_all terms.now.items) }
{
    !no_terms(terms) && !is_pair(name)
}

fn is_left_side(equations: &Vec<Equation>, term: &Term) -> bool
    ensures { result ≡ is_left_side (map equation_of equations.now.items) (view term.now) }
{
    match term {
        Term::App(symbol, terms, _) => {
            is_root(symbol, terms) && all_of_constructors(equations, terms)
        }
        _ => false,
    }
}

/// Whether the part is the term, or stands in it.
#[cycle(parts)]
pub fn has_part(term: &Term, part: &Term) -> bool
    ensures { result ≡ is_part (view part.now) (view term.now) }
{
    match term {
        Term::App(_, terms, _) => same(part, term) || one_has_part(terms, part),
        _ => same(part, term),
    }
}

#[cycle(parts)]
fn one_has_part(terms: &Vec<Term>, part: &Term) -> bool
    ensures { result ≡ is_part_of_one (view part.now) (view_all terms.now.items) }
{
    for term in terms {
        if has_part(term, part) {
            return true;
        }
    }
    false
}

// Whether the part stands in the term, and isn't the whole.
fn has_proper_part(term: &Term, part: &Term) -> bool
    ensures { result ≡ is_proper_part (view part.now) (view term.now) }
{
    match term {
        Term::App(_, terms, _) => one_has_part(terms, part),
        _ => false,
    }
}

// Whether the symbol is the constant of this name.
fn names_constant(symbol: &Symbol, private: bool, name: &Name) -> bool
    ensures { result ≡ names_constant (symbol_of symbol.now) private (name_of name.now) }
{
    symbol.name == *name && symbol.arity == 0 && symbol.private == private
}

fn has_constant(symbols: &Vec<Symbol>, private: bool, name: &Name) -> bool
    ensures { result ≡ has_constant (map symbol_of symbols.now.items) private (name_of name.now) }
{
    for symbol in symbols {
        if names_constant(symbol, private, name) {
            return true;
        }
    }
    false
}

// Whether the term is a symbol of arity 0, private or not.
fn is_constant(symbols: &Vec<Symbol>, private: bool, term: &Term) -> bool
    ensures { result ≡ is_constant (map symbol_of symbols.now.items) private (view term.now) }
{
    match term {
        Term::App(symbol, terms, _) => no_terms(terms) && has_constant(symbols, private, symbol),
        _ => false,
    }
}

// Whether each side is of the form that is asked for.
fn have_form(equations: &Vec<Equation>, equation: &Equation) -> bool
    ensures { result ≡ have_form (map equation_of equations.now.items) (equation_of equation.now) }
{
    is_left_side(equations, &equation.left) && of_constructors(equations, &equation.right)
}

// Whether the right side is a proper part of the left side, or a constant that isn't private.
fn leads(symbols: &Vec<Symbol>, equation: &Equation) -> bool
    ensures { result ≡ leads (map symbol_of symbols.now.items) (equation_of equation.now) }
{
    has_proper_part(&equation.left, &equation.right) || is_constant(symbols, false, &equation.right)
}

/// What the equation, one of these, is like by itself.
pub fn form_of(symbols: &Vec<Symbol>, equations: &Vec<Equation>, equation: &Equation) -> Form
    ensures { IsForm (map symbol_of symbols.now.items) (map equation_of equations.now.items) (equation_of equation.now) result }
{
    if !have_form(equations, equation) {
        Form::WrongShape
    } else if leads(symbols, equation) {
        Form::WellFormed
    } else if is_constant(symbols, true, &equation.right) {
        Form::PrivateConstant
    } else {
        Form::WrongShape
    }
}
