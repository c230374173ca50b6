// The first symbol of each name.

ghost use Rattle.std.specs.Prelude.{◌≡◌, ℕ, List, IfOk, OnOk, map};
ghost use Rattle.std.specs.Option.{option_or};
ghost use denote.Ref.{Bor};
ghost use Rattle.sp_fact.specs.GroundView.{symbol_of};
ghost use Rattle.sp_wf_symbols.specs.Firsts.{first_in, if_named, KnowsFirsts};
ghost use Rattle.sp_wf_symbols.specs.SymbolFindings as spec;

use indexmap::IndexMap;
use sp_fact::signature::Symbol;
use std::alloc::{AllocError, Global};

/// Symbols of which the first of a name is found without going over all of them.
#[derive(Drop)]
pub struct FirstSymbols<'s> {
    /// the symbols, in the order of the theory
    pub symbols: &'s Vec<Symbol>,
    firsts: IndexMap<&'s str, &'s Symbol>,
    ghost is_exact: { KnowsFirsts firsts (map symbol_of symbols.now.items) },
}

/// Whether the symbols have the same arity and are both private, or neither.
fn is_same_symbol(one: &Symbol, other: &Symbol) -> bool
    ensures { result ≡ spec.is_same_symbol (symbol_of one.now) (symbol_of other.now) }
{
    one.arity == other.arity && one.private == other.private
}

/// Puts the symbol under its name, unless there is one.
fn note<'s>(
    firsts: &mut IndexMap<&'s str, &'s Symbol>,
    symbol: &'s Symbol,
) -> Result<(), AllocError>
    ensures { OnOk result ((name : Bor (List ℕ)) → first_in firsts.new name ≡ option_or (first_in firsts.old name) (if_named name.now (symbol_of symbol.now))) }
{
    let name = symbol.name.text.as_str();
    match firsts.get(name) {
        Some(_) => Ok(()),
        None => {
            firsts.insert(name, symbol)?;
            Ok(())
        }
    }
}

impl<'s> FirstSymbols<'s> {
    /// These symbols.
    ///
    /// # Errors
    ///
    /// `AllocError` where memory is wanting.
    #[tactic(auto, using(crate::proofs::FirstNamed::or_none))]
    pub fn of(alloc: Global, symbols: &'s Vec<Symbol>) -> Result<FirstSymbols<'s>, AllocError>
        ensures { IfOk result (λ known. map symbol_of known.symbols.now.items ≡ map symbol_of symbols.now.items) }
    {
        let mut firsts = IndexMap::new(alloc);
        for symbol in symbols {
            note(&mut firsts, symbol)?;
        }
        Ok(FirstSymbols { symbols, firsts })
    }

    /// Whether the first of them that has the symbol's name is another one.
    pub fn differ_from(&self, symbol: &Symbol) -> bool
        ensures { result ≡ spec.differs (symbol_of symbol.now) (map symbol_of self.now.symbols.now.items) }
    {
        match self.firsts.get(symbol.name.text.as_str()) {
            Some(first) => !is_same_symbol(*first, symbol),
            None => false,
        }
    }
}
