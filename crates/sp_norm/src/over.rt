// Which terms are over the symbols of a signature, and of a sort.

ghost use Rattle.std.specs.Prelude.{◌≡◌, ◌↔◌, IsTrue, map};
ghost use Rattle.sp_spec.specs.Signature.{AreOver, HasPublic, HasSort, HasSymbol, IsOver};
ghost use Rattle.sp_term.specs.View.{name_of, sort_of};
ghost use Rattle.sp_fact.specs.GroundView.{ground_of, grounds_of, symbol_of};
ghost use Rattle.sp_norm.specs.Over.{all_over, any_public, any_symbol, is_symbol, over};

use sp_fact::ground_term::GroundTerm;
use sp_fact::signature::Symbol;
use sp_term::term::{Name, Sort, Term, has_sort};

fn is_symbol(symbol: &Symbol, name: &Name, count: usize) -> bool
    ensures { result ≡ is_symbol (symbol_of symbol.now) (name_of name.now) count }
{
    symbol.name == *name && symbol.arity == count
}

fn any_symbol(symbols: &Vec<Symbol>, name: &Name, count: usize) -> bool
    ensures { result ≡ any_symbol (map symbol_of symbols.now.items) (name_of name.now) count }
{
    for symbol in symbols {
        if is_symbol(symbol, name, count) {
            return true;
        }
    }
    false
}

fn any_public(symbols: &Vec<Symbol>, name: &Name, count: usize) -> bool
    ensures { result ≡ any_public (map symbol_of symbols.now.items) (name_of name.now) count }
{
    for symbol in symbols {
        if is_symbol(symbol, name, count) && !symbol.private {
            return true;
        }
    }
    false
}

/// Whether there is a symbol of this name over so many arguments, private or not.
pub fn has_symbol(symbols: &Vec<Symbol>, name: &Name, count: usize) -> bool
    ensures tests { result ≡ any_symbol (map symbol_of symbols.now.items) (name_of name.now) count }
    ensures tells { IsTrue result ↔ HasSymbol (map symbol_of symbols.now.items) (name_of name.now) count }
{
    any_symbol(symbols, name, count)
}

/// Whether there is one that the adversary may apply.
pub fn has_public(symbols: &Vec<Symbol>, name: &Name, count: usize) -> bool
    ensures tests { result ≡ any_public (map symbol_of symbols.now.items) (name_of name.now) count }
    ensures tells { IsTrue result ↔ HasPublic (map symbol_of symbols.now.items) (name_of name.now) count }
{
    any_public(symbols, name, count)
}

/// Whether each symbol in the term is one of these, over as many arguments as its arity.
pub fn is_over(symbols: &Vec<Symbol>, term: &GroundTerm) -> bool
    ensures tests { result ≡ over (map symbol_of symbols.now.items) (ground_of term.now) }
    ensures tells { IsTrue result ↔ IsOver (map symbol_of symbols.now.items) (ground_of term.now) }
{
    tree_over(symbols, term)
}

/// Whether each symbol in the terms is one of these, over as many arguments as its arity.
pub fn are_over(symbols: &Vec<Symbol>, terms: &Vec<GroundTerm>) -> bool
    ensures tests { result ≡ all_over (map symbol_of symbols.now.items) (grounds_of terms.now.items) }
    ensures tells { IsTrue result ↔ AreOver (map symbol_of symbols.now.items) (grounds_of terms.now.items) }
{
    trees_over(symbols, terms)
}

#[cycle(over)]
fn tree_over(symbols: &Vec<Symbol>, term: &GroundTerm) -> bool
    ensures { result ≡ over (map symbol_of symbols.now.items) (ground_of term.now) }
{
    match term {
        Term::Var(never) => match never.leaf {},
        Term::Constant(_) => true,
        Term::FreshName(_) => true,
        Term::App(f, terms, _) => any_symbol(symbols, f, terms.len()) && trees_over(symbols, terms),
    }
}

#[cycle(over)]
fn trees_over(symbols: &Vec<Symbol>, terms: &Vec<GroundTerm>) -> bool
    ensures { result ≡ all_over (map symbol_of symbols.now.items) (grounds_of terms.now.items) }
{
    for term in terms {
        if !tree_over(symbols, term) {
            return false;
        }
    }
    true
}

/// Whether the term is a value of the sort: of the sort, and over these symbols.
pub fn is_value(symbols: &Vec<Symbol>, sort: Sort, term: &GroundTerm) -> bool
    ensures { IsTrue result ↔ (HasSort (sort_of sort) (ground_of term.now) × IsOver (map symbol_of symbols.now.items) (ground_of term.now)) }
{
    has_sort(sort, term) && is_over(symbols, term)
}
