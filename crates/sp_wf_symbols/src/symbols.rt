// The findings on builtins and on symbols.

ghost use Rattle.std.specs.Prelude.{◌≡◌, OnOk, map};
ghost use Rattle.sp_term.specs.View.{name_of};
ghost use Rattle.sp_fact.specs.GroundView.{symbol_of};
ghost use Rattle.sp_spec_text.specs.Written.{item_builtins, item_functions, builtins_in, functions_in};
ghost use Rattle.sp_spec_text.specs.Declared.{builtin_of, builtin_symbols, declared_symbols};
ghost use Rattle.sp_written.specs.Views as view;
ghost use Rattle.sp_wf_symbols.specs.FirstsView.{symbols_of};
ghost use Rattle.sp_wf_symbols.specs.SymbolFindings as spec;
ghost use Rattle.sp_finding.specs.Finding.{lines_after};
ghost use Rattle.sp_wf_symbols.specs.Told.{otherwise_named};
ghost use Rattle.sp_lines.specs.TextsView.{texts_of};

use crate::firsts::FirstSymbols;
use sp_declared::builtins::Builtin;
use sp_fact::signature::Symbol;
use sp_finding::{Finding, MOST_ARGUMENTS, tell_if};
use sp_lines::Texts;
use sp_term::term::Name;
use sp_written::Item;
use std::alloc::{AllocError, Global};

// ---- builtins

/// Whether no builtin has this name.
fn is_left_out(name: &str) -> bool
    ensures { result ≡ spec.is_left_out (builtin_of name.now) }
{
    Builtin::named(name).is_none()
}

/// Tells of each of the names that no builtin has.
#[tactic(auto, using(sp_finding::proofs::Telling::told_on))]
fn tell_names_left_out(
    alloc: Global,
    lines: &mut Texts,
    names: &Vec<Name>,
) -> Result<(), AllocError>
    ensures { OnOk result (texts_of lines.new ≡ lines_after (texts_of lines.old) (spec.left_out (map name_of names.now.items))) }
{
    for name in names {
        let text = name.text.as_str();
        let is_wrong = is_left_out(text);
        tell_if(alloc, lines, is_wrong, Finding::BuiltinLeftOut(text))?;
    }
    Ok(())
}

fn tell_if_left_out(alloc: Global, lines: &mut Texts, item: &Item) -> Result<(), AllocError>
    ensures { OnOk result (texts_of lines.new ≡ lines_after (texts_of lines.old) (spec.left_out (item_builtins (view.item item.now)))) }
{
    match item {
        Item::Builtins(names) => tell_names_left_out(alloc, lines, names),
        _ => Ok(()),
    }
}

/// Tells of each builtin that isn't known.
///
/// # Errors
///
/// `AllocError` where memory is wanting.
pub fn tell_left_out(alloc: Global, lines: &mut Texts, items: &Vec<Item>) -> Result<(), AllocError>
    ensures { OnOk result (texts_of lines.new ≡ lines_after (texts_of lines.old) (spec.left_out (builtins_in (view.items items.now.items)))) }
{
    for item in items {
        tell_if_left_out(alloc, lines, item)?;
    }
    Ok(())
}

// ---- symbols

/// Tells of each of these that is declared in another way.
#[tactic(auto, using(sp_finding::proofs::Telling::told_on))]
fn tell_otherwise(
    alloc: Global,
    lines: &mut Texts,
    symbols: &FirstSymbols,
    declared: &Vec<Symbol>,
) -> Result<(), AllocError>
    ensures { OnOk result (texts_of lines.new ≡ lines_after (texts_of lines.old) (spec.declared_otherwise (symbols_of symbols.now) (map symbol_of declared.now.items))) }
{
    for symbol in declared {
        let is_wrong = symbols.differ_from(symbol);
        let finding = Finding::DeclaredTwice(symbol.name.text.as_str());
        tell_if(alloc, lines, is_wrong, finding)?;
    }
    Ok(())
}

/// The same of the symbols of the builtin of this name, if it is known.
fn tell_builtin(
    alloc: Global,
    lines: &mut Texts,
    symbols: &FirstSymbols,
    name: &Name,
) -> Result<(), AllocError>
    ensures { OnOk result (texts_of lines.new ≡ lines_after (texts_of lines.old) (spec.declared_otherwise (symbols_of symbols.now) (builtin_symbols (builtin_of (name_of name.now))))) }
{
    match Builtin::named(name.text.as_str()) {
        Some(builtin) => {
            let declared = builtin.symbols(alloc)?;
            tell_otherwise(alloc, lines, symbols, &declared)?;
            Ok(())
        }
        None => Ok(()),
    }
}

/// The same of the symbols of each of these builtins.
fn tell_builtins(
    alloc: Global,
    lines: &mut Texts,
    symbols: &FirstSymbols,
    names: &Vec<Name>,
) -> Result<(), AllocError>
    ensures { OnOk result (texts_of lines.new ≡ lines_after (texts_of lines.old) (otherwise_named (symbols_of symbols.now) (map name_of names.now.items))) }
{
    for name in names {
        tell_builtin(alloc, lines, symbols, name)?;
    }
    Ok(())
}

fn tell_if_builtins(
    alloc: Global,
    lines: &mut Texts,
    symbols: &FirstSymbols,
    item: &Item,
) -> Result<(), AllocError>
    ensures { OnOk result (texts_of lines.new ≡ lines_after (texts_of lines.old) (otherwise_named (symbols_of symbols.now) (item_builtins (view.item item.now)))) }
{
    match item {
        Item::Builtins(names) => tell_builtins(alloc, lines, symbols, names),
        _ => Ok(()),
    }
}

fn tell_all_builtins(
    alloc: Global,
    lines: &mut Texts,
    symbols: &FirstSymbols,
    items: &Vec<Item>,
) -> Result<(), AllocError>
    ensures { OnOk result (texts_of lines.new ≡ lines_after (texts_of lines.old) (otherwise_named (symbols_of symbols.now) (builtins_in (view.items items.now.items)))) }
{
    for item in items {
        tell_if_builtins(alloc, lines, symbols, item)?;
    }
    Ok(())
}

fn tell_if_functions(
    alloc: Global,
    lines: &mut Texts,
    symbols: &FirstSymbols,
    item: &Item,
) -> Result<(), AllocError>
    ensures { OnOk result (texts_of lines.new ≡ lines_after (texts_of lines.old) (spec.declared_otherwise (symbols_of symbols.now) (item_functions (view.item item.now)))) }
{
    match item {
        Item::Functions(declared) => tell_otherwise(alloc, lines, symbols, declared),
        _ => Ok(()),
    }
}

fn tell_all_functions(
    alloc: Global,
    lines: &mut Texts,
    symbols: &FirstSymbols,
    items: &Vec<Item>,
) -> Result<(), AllocError>
    ensures { OnOk result (texts_of lines.new ≡ lines_after (texts_of lines.old) (spec.declared_otherwise (symbols_of symbols.now) (functions_in (view.items items.now.items)))) }
{
    for item in items {
        tell_if_functions(alloc, lines, symbols, item)?;
    }
    Ok(())
}

/// The same of the symbols of builtins, and then of the others.
#[tactic(auto, using(crate::proofs::Declaring::declared_behind))]
fn tell_all_otherwise(
    alloc: Global,
    lines: &mut Texts,
    symbols: &FirstSymbols,
    items: &Vec<Item>,
) -> Result<(), AllocError>
    ensures { OnOk result (texts_of lines.new ≡ lines_after (texts_of lines.old) (spec.declared_otherwise (symbols_of symbols.now) (declared_symbols (view.items items.now.items)))) }
{
    tell_all_builtins(alloc, lines, symbols, items)?;
    tell_all_functions(alloc, lines, symbols, items)
}

/// Tells of each symbol that is declared in another way than the first of its name: those of builtins, and then the others.
///
/// # Errors
///
/// `AllocError` where memory is wanting.
pub fn tell_declared(
    alloc: Global,
    lines: &mut Texts,
    symbols: &Vec<Symbol>,
    items: &Vec<Item>,
) -> Result<(), AllocError>
    ensures { OnOk result (texts_of lines.new ≡ lines_after (texts_of lines.old) (spec.declared_otherwise (map symbol_of symbols.now.items) (declared_symbols (view.items items.now.items)))) }
{
    let firsts = FirstSymbols::of(alloc, symbols)?;
    tell_all_otherwise(alloc, lines, &firsts, items)
}

/// Tells of each of the symbols that has too many arguments.
///
/// # Errors
///
/// `AllocError` where memory is wanting.
#[tactic(auto, using(sp_finding::proofs::Telling::told_on))]
pub fn tell_wide_symbols(
    alloc: Global,
    lines: &mut Texts,
    symbols: &Vec<Symbol>,
) -> Result<(), AllocError>
    ensures { OnOk result (texts_of lines.new ≡ lines_after (texts_of lines.old) (spec.wide_symbols (map symbol_of symbols.now.items))) }
{
    for symbol in symbols {
        let is_wrong = MOST_ARGUMENTS < symbol.arity;
        let finding = Finding::ArityAbove(symbol.name.text.as_str());
        tell_if(alloc, lines, is_wrong, finding)?;
    }
    Ok(())
}
