// The symbols of a theory: those of pairs, of its builtins and of its own.

ghost use Rattle.std.specs.Prelude.{◌≡◌, [], ◌∷◌, IfOk, OnOk, map};
ghost use Rattle.sp_spec.specs.Signature.{pair_symbols};
ghost use Rattle.sp_term.specs.View.{name_of};
ghost use Rattle.sp_fact.specs.GroundView.{symbol_of};
ghost use Rattle.sp_lines.specs.TextsView.{texts_of};
ghost use Rattle.sp_spec_text.specs.Written.{item_builtins, item_functions, builtins_in, functions_in};
ghost use Rattle.sp_spec_text.specs.Declared as spec;
ghost use Rattle.sp_written.specs.Views as view;
ghost use Rattle.sp_declared.specs.Symbols.{declared_after, names_of, symbols_named};

use crate::builtins::Builtin;
use sp_fact::signature::{Signature, Symbol};
use sp_lines::Texts;
use sp_term::term::Name;
use sp_written::Item;
use std::alloc::{AllocError, Global};

/// The symbols that are declared so far, among which one's name is found without going over all of them.
#[derive(Drop)]
struct Declared {
    /// the symbols, in the order in which they are declared
    symbols: Vec<Symbol>,
    /// their names
    names: Texts,
    ghost is_exact: { texts_of names ≡ names_of (map symbol_of symbols.items) },
}

/// Whether one of the symbols has this name and takes no arguments.
pub fn names_constant(symbols: &Vec<Symbol>, name: &str) -> bool
    ensures { result ≡ spec.is_constant (map symbol_of symbols.now.items) name.now }
{
    for symbol in symbols {
        if symbol.name.text.as_str() == name && symbol.arity == 0 {
            return true;
        }
    }
    false
}

/// Puts the symbol at the end, unless there is one of its name. Room for it is made before its name is put among theirs.
fn declare(alloc: Global, declared: &mut Declared, symbol: Symbol) -> Result<(), AllocError>
    ensures { OnOk result (map symbol_of declared.new.symbols.items ≡ declared_after (map symbol_of declared.old.symbols.items) (symbol_of symbol ∷ [])) }
{
    let name = String::from_str(alloc, symbol.name.text.as_str())?;
    declared.symbols.reserve(1)?;
    if declared.names.see(name)? {
        declared.symbols.push(symbol)?;
    }
    Ok(())
}

/// An equal symbol.
fn copy(symbol: &Symbol) -> Result<Symbol, AllocError>
    ensures { IfOk result (λ s. symbol_of s ≡ symbol_of symbol.now) }
{
    let name = symbol.name.clone()?;
    Ok(Symbol {
        name,
        arity: symbol.arity,
        private: symbol.private,
    })
}

/// Puts the symbols at the end, each unless there is one of its name.
fn declare_all(alloc: Global, declared: &mut Declared, more: &Vec<Symbol>) -> Result<(), AllocError>
    ensures { OnOk result (map symbol_of declared.new.symbols.items ≡ declared_after (map symbol_of declared.old.symbols.items) (map symbol_of more.now.items)) }
{
    for symbol in more {
        let copied = copy(symbol)?;
        declare(alloc, declared, copied)?;
    }
    Ok(())
}

/// The same of the symbols of a builtin, if this is the name of one.
fn declare_builtin(alloc: Global, declared: &mut Declared, name: &Name) -> Result<(), AllocError>
    ensures { OnOk result (map symbol_of declared.new.symbols.items ≡ declared_after (map symbol_of declared.old.symbols.items) (spec.builtin_symbols (spec.builtin_of (name_of name.now)))) }
{
    match Builtin::named(name.text.as_str()) {
        Some(builtin) => {
            let more = builtin.symbols(alloc)?;
            declare_all(alloc, declared, &more)?;
            Ok(())
        }
        None => Ok(()),
    }
}

/// The same of builtins with these names.
fn declare_builtins(
    alloc: Global,
    declared: &mut Declared,
    names: &Vec<Name>,
) -> Result<(), AllocError>
    ensures { OnOk result (map symbol_of declared.new.symbols.items ≡ declared_after (map symbol_of declared.old.symbols.items) (symbols_named (map name_of names.now.items))) }
{
    for name in names {
        declare_builtin(alloc, declared, name)?;
    }
    Ok(())
}

/// The same of the builtins that the item names.
fn declare_builtins_of(
    alloc: Global,
    declared: &mut Declared,
    item: &Item,
) -> Result<(), AllocError>
    ensures { OnOk result (map symbol_of declared.new.symbols.items ≡ declared_after (map symbol_of declared.old.symbols.items) (symbols_named (item_builtins (view.item item.now)))) }
{
    match item {
        Item::Builtins(names) => declare_builtins(alloc, declared, names),
        _ => Ok(()),
    }
}

/// The same of the symbols that the item declares itself.
fn declare_functions_of(
    alloc: Global,
    declared: &mut Declared,
    item: &Item,
) -> Result<(), AllocError>
    ensures { OnOk result (map symbol_of declared.new.symbols.items ≡ declared_after (map symbol_of declared.old.symbols.items) (item_functions (view.item item.now))) }
{
    match item {
        Item::Functions(more) => declare_all(alloc, declared, more),
        _ => Ok(()),
    }
}

/// The same of all builtins.
fn declare_all_builtins(
    alloc: Global,
    declared: &mut Declared,
    items: &Vec<Item>,
) -> Result<(), AllocError>
    ensures { OnOk result (map symbol_of declared.new.symbols.items ≡ declared_after (map symbol_of declared.old.symbols.items) (symbols_named (builtins_in (view.items items.now.items)))) }
{
    for item in items {
        declare_builtins_of(alloc, declared, item)?;
    }
    Ok(())
}

/// The same of all items' own symbols.
fn declare_all_functions(
    alloc: Global,
    declared: &mut Declared,
    items: &Vec<Item>,
) -> Result<(), AllocError>
    ensures { OnOk result (map symbol_of declared.new.symbols.items ≡ declared_after (map symbol_of declared.old.symbols.items) (functions_in (view.items items.now.items))) }
{
    for item in items {
        declare_functions_of(alloc, declared, item)?;
    }
    Ok(())
}

/// The symbols of pairs.
fn of_pairs(alloc: Global) -> Result<Declared, AllocError>
    ensures { IfOk result (λ declared. map symbol_of declared.symbols.items ≡ pair_symbols) }
{
    let mut declared = Declared {
        symbols: Vec::new(alloc),
        names: Texts::new(alloc),
    };
    let pairs = Signature::pairs(alloc)?;
    declare_all(alloc, &mut declared, &pairs.symbols)?;
    Ok(declared)
}

/// All symbols of the theory with these items: those of pairs, of its builtins and of its own, of each name the first.
///
/// # Errors
///
/// `AllocError` where memory is wanting.
#[tactic(auto, using(crate::proofs::Declaring::declared_both))]
pub fn symbols(alloc: Global, items: &Vec<Item>) -> Result<Vec<Symbol>, AllocError>
    ensures { IfOk result (λ ss. map symbol_of ss.items ≡ spec.all_symbols (view.items items.now.items)) }
{
    let mut declared = of_pairs(alloc)?;
    declare_all_builtins(alloc, &mut declared, items)?;
    declare_all_functions(alloc, &mut declared, items)?;
    Ok(declared.symbols)
}
