// The symbols of a theory, looked up.

ghost use Rattle.std.specs.Prelude.{◌≡◌, IfOk, map};
ghost use Rattle.sp_term.specs.View.{name_of};
ghost use Rattle.sp_fact.specs.GroundView.{symbol_of};
ghost use Rattle.sp_finding.specs.Known.{Knows};
ghost use Rattle.sp_finding.specs.TermFindings.{has_symbol};

use crate::forms::SymbolForm;
use indexmap::IndexSet;
use sp_fact::signature::Symbol;
use sp_term::term::Name;
use std::alloc::{AllocError, Global};

/// Symbols among which one is found without going over all of them.
#[derive(Drop)]
pub struct KnownSymbols<'s> {
    /// the symbols, in the order of the theory
    pub symbols: &'s Vec<Symbol>,
    forms: IndexSet<SymbolForm<'s>>,
    ghost is_exact: { Knows forms (map symbol_of symbols.now.items) },
}

impl<'s> KnownSymbols<'s> {
    /// These symbols.
    ///
    /// # Errors
    ///
    /// `AllocError` where memory is wanting.
    pub fn of(alloc: Global, symbols: &'s Vec<Symbol>) -> Result<KnownSymbols<'s>, AllocError>
        ensures { IfOk result (λ known. map symbol_of known.symbols.now.items ≡ map symbol_of symbols.now.items) }
    {
        let mut forms = IndexSet::new(alloc);
        for symbol in symbols {
            let form = SymbolForm {
                name: symbol.name.text.as_str(),
                arity: symbol.arity,
            };
            forms.insert(form)?;
        }
        Ok(KnownSymbols { symbols, forms })
    }

    /// Whether one of them has this name and so many arguments.
    pub fn has(&self, name: &Name, count: usize) -> bool
        ensures { result ≡ has_symbol (map symbol_of self.now.symbols.now.items) (name_of name.now) count }
    {
        self.forms.contains(&SymbolForm {
            name: name.text.as_str(),
            arity: count,
        })
    }
}
