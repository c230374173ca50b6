// The findings on symbols that aren't there, in equations, rules, restrictions and lemmas alike.

ghost use Rattle.std.specs.Prelude.{◌≡◌, OnOk, map};
ghost use Rattle.sp_fact.specs.GroundView.{symbol_of};
ghost use Rattle.sp_written.specs.Views as view;
ghost use Rattle.sp_finding.specs.Finding.{lines_after};
ghost use Rattle.sp_finding.specs.KnownView.{symbols_of};
ghost use Rattle.sp_lines.specs.TextsView.{texts_of};
ghost use Rattle.sp_wf.specs.ItemFindings as spec;

use sp_fact::signature::Symbol;
use sp_finding::KnownSymbols;
use sp_lines::Texts;
use sp_wf_formulas::{TermFault, tell_terms_of};
use sp_wf_rules::tell_unknown_in_rule;
use sp_wf_symbols::tell_unknown_in_equations;
use sp_written::Item;
use std::alloc::{AllocError, Global};

/// Tells of each symbol that terms of the item have and that isn't one of these.
#[tactic(auto, using(sp_wf_formulas::proofs::OnTerms::unknown_told))]
fn tell_unknown_in_item(
    alloc: Global,
    lines: &mut Texts,
    symbols: &KnownSymbols,
    item: &Item,
) -> Result<(), AllocError>
    ensures { OnOk result (texts_of lines.new ≡ lines_after (texts_of lines.old) (spec.unknown_in_item (symbols_of symbols.now) (view.item item.now))) }
{
    match item {
        Item::Equations(equations) => tell_unknown_in_equations(alloc, lines, symbols, equations),
        Item::Rule(bound) => tell_unknown_in_rule(alloc, lines, symbols, &bound.rule),
        Item::Restriction(restriction) => {
            let fault = TermFault::Unknown(symbols);
            tell_terms_of(alloc, lines, fault, &restriction.formula)
        }
        Item::Lemma(lemma) => {
            tell_terms_of(alloc, lines, TermFault::Unknown(symbols), &lemma.formula)
        }
        _ => Ok(()),
    }
}

/// The same in each of the items.
fn tell_unknown_in_items(
    alloc: Global,
    lines: &mut Texts,
    symbols: &KnownSymbols,
    items: &Vec<Item>,
) -> Result<(), AllocError>
    ensures { OnOk result (texts_of lines.new ≡ lines_after (texts_of lines.old) (spec.unknown_in_items (symbols_of symbols.now) (view.items items.now.items))) }
{
    for item in items {
        tell_unknown_in_item(alloc, lines, symbols, item)?;
    }
    Ok(())
}

/// Tells of each symbol that terms of the theory have and that isn't one of these.
pub fn tell_all_unknown(
    alloc: Global,
    lines: &mut Texts,
    symbols: &Vec<Symbol>,
    items: &Vec<Item>,
) -> Result<(), AllocError>
    ensures { OnOk result (texts_of lines.new ≡ lines_after (texts_of lines.old) (spec.unknown_in_items (map symbol_of symbols.now.items) (view.items items.now.items))) }
{
    let known = KnownSymbols::of(alloc, symbols)?;
    tell_unknown_in_items(alloc, lines, &known, items)
}
