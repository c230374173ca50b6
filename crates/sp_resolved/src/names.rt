// The names of a theory that are symbols: a bare name without a binder, of which a symbol of arity 0 is declared.

ghost use Rattle.std.specs.Prelude.{◌≡◌, IfOk, map};
ghost use Rattle.sp_spec.specs.Term.{app, none};
ghost use Rattle.sp_spec.specs.Formula.{Written};
ghost use Rattle.sp_fact.specs.GroundView.{symbol_of};
ghost use Rattle.sp_read_parts.specs.Views as parts;
ghost use Rattle.sp_spec_text.specs.Declared as spec;
ghost use Rattle.sp_resolved.specs.Names.{innermost_first, names_symbol};

use sp_declared::names::is_listed;
use sp_declared::symbols::names_constant;
use sp_fact::signature::Symbol;
use sp_read_parts::{Mark, WrittenTerm, WrittenVariable};
use sp_term::apply::Assigns;
use sp_term::term::{Name, Term, nesting_over};
use std::alloc::{AllocError, Global};
use std::rc::Rc;

/// The symbols that names may be, and the names that are bound, which are none of them.
#[derive(Clone, Copy)]
pub struct Resolving<'a, 'b> {
    /// all symbols of the theory
    pub symbols: &'b Vec<Symbol>,
    /// the names before which a binder stands
    pub bound: &'b Vec<&'a str>,
}

/// Whether nothing marks the variable.
fn is_bare(mark: Mark) -> bool
    ensures { result ≡ spec.is_bare (parts.mark mark) }
{
    match mark {
        Mark::Bare => true,
        _ => false,
    }
}

/// Whether the variable is a bare name of which there is a symbol of arity 0, and which isn't bound.
#[tactic(auto, using(crate::proofs::Binding::listed_turned))]
fn is_symbol(symbols: &Vec<Symbol>, bound: &Vec<&str>, variable: &WrittenVariable) -> bool
    ensures { result ≡ names_symbol (map symbol_of symbols.now.items) (innermost_first bound.now.items) (parts.variable variable.now) }
{
    is_bare(variable.mark)
        && names_constant(symbols, variable.name)
        && !is_listed(variable.name, bound)
}

/// The symbol of this name, over no arguments.
fn constant<'a>(alloc: Global, name: &str) -> Result<WrittenTerm<'a>, AllocError>
    ensures { IfOk result (λ t. parts.term t ≡ app name.now none) }
{
    let name = Name::new(alloc, name)?;
    let none = Vec::new(alloc);
    let nesting = nesting_over(&none)?;
    let shared = Rc::new(alloc, none)?;
    Ok(Term::App(name, shared, nesting))
}

impl<'a, 'b> Assigns<WrittenVariable<'a>, WrittenVariable<'a>> for Resolving<'a, 'b> {
    ghost From = { Written };

    ghost To = { Written };

    ghost from_of = { parts.variable };

    ghost to_of = { parts.variable };

    ghost value_of = { λ r. spec.resolved_name (map symbol_of r.symbols.now.items) (innermost_first r.bound.now.items) };

    fn value(
        &self,
        alloc: Global,
        leaf: &WrittenVariable<'a>,
    ) -> Result<WrittenTerm<'a>, AllocError> {
        if is_symbol(self.symbols, self.bound, leaf) {
            constant(alloc, leaf.name)
        } else {
            Ok(Term::Var(*leaf))
        }
    }
}
