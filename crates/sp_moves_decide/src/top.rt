// What stands for a message variable of a system.

ghost use Rattle.std.specs.Prelude.{◌≡◌, ◌∷◌, IfOk, codes, map, option_map};
ghost use Rattle.sp_spec.specs.Term.{Fresh, Msg, Pub, app};
ghost use Rattle.sp_spec.specs.Signature.{msg};
ghost use Rattle.sp_spec_system.specs.Head.{new_variables};
ghost use Rattle.sp_spec_formula.specs.Top as spec;
ghost use Rattle.sp_term.specs.View.{sort_of, view, view_all};
ghost use Rattle.sp_fact.specs.GroundView.{symbol_of};
ghost use Rattle.sp_system.specs.SystemView.{system_of};
ghost use Rattle.sp_moves.specs.View.{case_of};

use crate::occurring::{Sought, system_has};
use sp_fact::signature::Symbol;
use sp_moves::moves::Case;
use sp_system::system::System;
use sp_term::subst::Subst;
use sp_term::term::{Sort, Term, Variable, nesting_over};
use std::alloc::{AllocError, Global};
use std::rc::Rc;

/// Whether the variable stands anywhere in the system.
pub fn has_variable(system: &System, sort: Sort, number: u128) -> bool
    ensures { result ≡ spec.has_variable (system_of system.now) (spec.of_number (sort_of sort) number) }
{
    system_has(Sought::Variable(Variable { sort, number }), system)
}

// The system with the term in the place of the message variable of this number; it has so many new variables.
fn with_term_for(
    alloc: Global,
    system: &System,
    number: u128,
    term: Term,
    count: usize,
) -> Result<System, AllocError>
    ensures { IfOk result (λ s. system_of s ≡ spec.with_term_for (system_of system.now) (spec.of_number Msg number) (view term) count) }
{
    let Some(next) = system.next.checked_add(count as u128) else {
        return Err(AllocError);
    };
    let sort = Sort::Msg;
    let mut subst = Subst::new(alloc);
    subst.push(Variable { sort, number }, term)?;
    let mut made = system.with_terms(alloc, &subst)?;
    made.next = next;
    Ok(made)
}

fn by_name(alloc: Global, system: &System, number: u128, sort: Sort) -> Result<System, AllocError>
    ensures { IfOk result (λ s. system_of s ≡ spec.by_name (system_of system.now) number (sort_of sort)) }
{
    let new = Term::Var(Variable {
        sort,
        number: system.next,
    });
    let made = with_term_for(alloc, system, number, new, 1)?;
    Ok(made)
}

fn message(number: u128) -> Term
    ensures { view result ≡ msg number }
{
    let sort = Sort::Msg;
    Term::Var(Variable { sort, number })
}

// So many message variables, of the numbers from the first on.
#[tactic(auto, using(crate::proofs::NewVariables::listed))]
fn new_variables(alloc: Global, count: usize, first: u128) -> Result<Vec<Term>, AllocError>
    ensures { IfOk result (λ ts. view_all ts.items ≡ new_variables count first) }
{
    let mut made = Vec::with_capacity(alloc, count)?;
    for place in 0..count {
        let Some(number) = first.checked_add(place as u128) else {
            return Err(AllocError);
        };
        made.push(message(number))?;
    }
    Ok(made)
}

// The symbol over new variables.
fn over_new(alloc: Global, symbol: &Symbol, first: u128) -> Result<Term, AllocError>
    ensures { IfOk result (λ t. view t ≡ app (symbol_of symbol.now).name (new_variables symbol.now.arity first)) }
{
    let args = new_variables(alloc, symbol.arity, first)?;
    let nesting = nesting_over(&args)?;
    let name = symbol.name.clone()?;
    let shared = Rc::new(alloc, args)?;
    Ok(Term::App(name, shared, nesting))
}

fn by_symbol(
    alloc: Global,
    system: &System,
    number: u128,
    symbol: &Symbol,
) -> Result<Case, AllocError>
    ensures { IfOk result (λ c. case_of c ≡ spec.by_symbol (system_of system.now) number (symbol_of symbol.now)) }
{
    let term = over_new(alloc, symbol, system.next)?;
    let made = with_term_for(alloc, system, number, term, symbol.arity)?;
    let name = String::from_str(alloc, symbol.name.text.as_str())?;
    Ok(Case { name, system: made })
}

fn by_symbols(
    alloc: Global,
    symbols: &Vec<Symbol>,
    system: &System,
    number: u128,
) -> Result<Vec<Case>, AllocError>
    ensures { IfOk result (λ cs. map case_of cs.items ≡ map (spec.by_symbol (system_of system.now) number) (map symbol_of symbols.now.items)) }
{
    let mut made = Vec::with_capacity(alloc, symbols.len())?;
    for symbol in symbols {
        made.push(by_symbol(alloc, system, number, symbol)?)?;
    }
    Ok(made)
}

// The case of this name, in which a name of the sort stands for the variable.
fn named_by(
    alloc: Global,
    system: &System,
    number: u128,
    name: &str,
    sort: Sort,
) -> Result<Case, AllocError>
    ensures { IfOk result (λ c. case_of c ≡ record { name = name.now; system = spec.by_name (system_of system.now) number (sort_of sort) }) }
{
    let made = by_name(alloc, system, number, sort)?;
    let name = String::from_str(alloc, name)?;
    Ok(Case { name, system: made })
}

fn each_way(
    alloc: Global,
    symbols: &Vec<Symbol>,
    system: &System,
    number: u128,
) -> Result<Vec<Case>, AllocError>
    ensures { IfOk result (λ cs. map case_of cs.items
        ≡ record { name = codes "pub"; system = spec.by_name (system_of system.now) number Pub }
        ∷ record { name = codes "fresh"; system = spec.by_name (system_of system.now) number Fresh }
        ∷ map (spec.by_symbol (system_of system.now) number) (map symbol_of symbols.now.items)) }
{
    let mut made = Vec::new(alloc);
    made.push(named_by(alloc, system, number, "pub", Sort::Pub)?)?;
    made.push(named_by(alloc, system, number, "fresh", Sort::Fresh)?)?;
    let mut others = by_symbols(alloc, symbols, system, number)?;
    made.append(&mut others)?;
    Ok(made)
}

/// The cases in which a public name, a fresh one, or each symbol over new variables stands for the message variable of this number, before they are simplified;
/// none where there is no such variable in the system.
///
/// # Errors
///
/// `AllocError` where memory is wanting, or no number is left.
pub fn top_cases(
    alloc: Global,
    symbols: &Vec<Symbol>,
    system: &System,
    number: u128,
) -> Result<Option<Vec<Case>>, AllocError>
    ensures { IfOk result (λ o. option_map (λ cs. map case_of cs.items) o ≡ spec.top_cases (map symbol_of symbols.now.items) (system_of system.now) number) }
{
    if !has_variable(system, Sort::Msg, number) {
        return Ok(None);
    }
    let made = each_way(alloc, symbols, system, number)?;
    Ok(Some(made))
}
