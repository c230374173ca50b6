// Items, and the whole text, with what their names stand for.

ghost use Rattle.std.specs.Prelude.{◌≡◌, [], ◌∷◌, IfOk, map};
ghost use Rattle.sp_fact.specs.GroundView.{symbol_of};
ghost use Rattle.sp_read_parts.specs.Views as parts;
ghost use Rattle.sp_spec_text.specs.Bindings as bound;
ghost use Rattle.sp_spec_text.specs.Declared as spec;
ghost use Rattle.sp_written.specs.Views as view;

use crate::bindings::with_values;
use crate::formulas::closed_formula;
use crate::names::Resolving;
use sp_fact::signature::Symbol;
use sp_read_parts::{ReadFormula, WrittenRule};
use sp_term::apply::apply;
use sp_written::{BoundRule, Item, ReadTheory, WrittenEquation, WrittenLemma, WrittenRestriction};
use std::alloc::{AllocError, Global};

/// The equations with symbols in the place of the names that are such.
fn equations<'a>(
    alloc: Global,
    symbols: &Vec<Symbol>,
    written: &Vec<WrittenEquation<'a>>,
) -> Result<Vec<WrittenEquation<'a>>, AllocError>
    ensures { IfOk result (λ es. map view.equation es.items ≡ map (spec.resolved_equation (map symbol_of symbols.now.items)) (map view.equation written.now.items)) }
{
    let bound = Vec::new(alloc);
    let resolving = Resolving {
        symbols,
        bound: &bound,
    };
    let mut made = Vec::with_capacity(alloc, written.len())?;
    for equation in written {
        let left = apply(alloc, &resolving, &equation.left)?;
        let right = apply(alloc, &resolving, &equation.right)?;
        made.push(WrittenEquation { left, right })?;
    }
    Ok(made)
}

/// The rule with symbols in the place of the names that are such.
fn with_symbols<'a>(
    alloc: Global,
    symbols: &Vec<Symbol>,
    written: &WrittenRule<'a>,
) -> Result<WrittenRule<'a>, AllocError>
    ensures { IfOk result (λ r. parts.rule r ≡ spec.resolved_rule (map symbol_of symbols.now.items) (parts.rule written.now)) }
{
    let bound = Vec::new(alloc);
    let resolving = Resolving {
        symbols,
        bound: &bound,
    };
    let facts = written.facts.changed(alloc, &resolving)?;
    Ok(WrittenRule {
        name: written.name,
        facts,
    })
}

/// The rule with the values of its bindings, then with symbols in the place of the names that are such.
fn rule<'a>(
    alloc: Global,
    symbols: &Vec<Symbol>,
    written: BoundRule<'a>,
) -> Result<WrittenRule<'a>, AllocError>
    ensures { IfOk result (λ r. parts.rule r ≡ spec.resolved_rule (map symbol_of symbols.now.items) (bound.with_values (parts.bindings written.entry.bindings.items) (parts.rule written.entry.rule))) }
{
    let valued = with_values(alloc, written)?;
    let made = with_symbols(alloc, symbols, &valued)?;
    Ok(made)
}

/// The restriction with symbols in the place of the names that are such.
fn restriction<'a>(
    alloc: Global,
    symbols: &Vec<Symbol>,
    written: &WrittenRestriction<'a>,
) -> Result<WrittenRestriction<'a>, AllocError>
    ensures { IfOk result (λ r. view.restriction r ≡ spec.resolved_restriction (map symbol_of symbols.now.items) (view.restriction written.now)) }
{
    let formula = closed_formula(alloc, symbols, &written.formula)?;
    Ok(WrittenRestriction {
        name: written.name,
        formula,
    })
}

/// The lemma with this formula in the place of its own.
fn with_formula<'a>(written: WrittenLemma<'a>, formula: ReadFormula<'a>) -> WrittenLemma<'a>
    ensures { result ≡ record written.entry { formula = formula.entry } }
{
    WrittenLemma {
        name: written.name,
        attributes: written.attributes,
        kind: written.kind,
        formula,
        proof: written.proof,
        span: written.span,
    }
}

/// The lemma with symbols in the place of the names that are such; its attributes and its proof stay as they are.
fn lemma<'a>(
    alloc: Global,
    symbols: &Vec<Symbol>,
    written: WrittenLemma<'a>,
) -> Result<WrittenLemma<'a>, AllocError>
    ensures statement { IfOk result (λ l. view.lemma l ≡ spec.resolved_lemma (map symbol_of symbols.now.items) (view.lemma written.entry)) }
    ensures attributes { IfOk result (λ l. l.attributes ≡ written.entry.attributes) }
    ensures proof { IfOk result (λ l. l.proof ≡ written.entry.proof) }
    ensures span { IfOk result (λ l. l.span ≡ written.entry.span) }
{
    let formula = closed_formula(alloc, symbols, &written.formula)?;
    Ok(with_formula(written, formula))
}

/// The item with what its names stand for; nothing is bound in it any more.
fn item<'a>(alloc: Global, symbols: &Vec<Symbol>, written: Item<'a>) -> Result<Item<'a>, AllocError>
    ensures value { IfOk result (λ x. view.item x ≡ spec.resolved_item (map symbol_of symbols.now.items) (view.item written.entry)) }
    ensures places { IfOk result (λ x. view.spans (x ∷ []) ≡ view.spans (written.entry ∷ [])) }
{
    match written {
        Item::Builtins(names) => Ok(Item::Builtins(names)),
        Item::Functions(functions) => Ok(Item::Functions(functions)),
        Item::Heuristic(words) => Ok(Item::Heuristic(words)),
        Item::Block(word) => Ok(Item::Block(word)),
        Item::Equations(written) => {
            let made = equations(alloc, symbols, &written)?;
            Ok(Item::Equations(made))
        }
        Item::Rule(written) => {
            let rule = rule(alloc, symbols, written)?;
            let bindings = Vec::new(alloc);
            Ok(Item::Rule(BoundRule { bindings, rule }))
        }
        Item::Restriction(written) => {
            let made = restriction(alloc, symbols, &written)?;
            Ok(Item::Restriction(made))
        }
        Item::Lemma(written) => {
            let made = lemma(alloc, symbols, written)?;
            Ok(Item::Lemma(made))
        }
    }
}

/// The items with what their names stand for.
fn items<'a>(
    alloc: Global,
    symbols: &Vec<Symbol>,
    written: Vec<Item<'a>>,
) -> Result<Vec<Item<'a>>, AllocError>
    ensures value { IfOk result (λ xs. view.items xs.items ≡ map (spec.resolved_item (map symbol_of symbols.now.items)) (view.items written.entry.items)) }
    ensures places { IfOk result (λ xs. view.spans xs.items ≡ view.spans written.entry.items) }
{
    let mut made = Vec::with_capacity(alloc, written.len())?;
    for next in written {
        let done = item(alloc, symbols, next)?;
        made.push(done)?;
    }
    Ok(made)
}

/// The theory with the values of names that `let` binds, and then with symbols in the place of the names that are such: a bare name is one where a symbol
/// of arity 0 has it and no quantifier binds it. No rule has bindings any more. Attributes and proofs, and where these stand, are left as they are.
///
/// # Errors
///
/// `AllocError` where memory is wanting, or a term with its values would nest deeper than terms may.
pub fn resolved<'a>(
    alloc: Global,
    symbols: &Vec<Symbol>,
    theory: ReadTheory<'a>,
) -> Result<ReadTheory<'a>, AllocError>
    ensures value { IfOk result (λ t. view.theory t ≡ record { name = theory.entry.name.now; items = map (spec.resolved_item (map symbol_of symbols.now.items)) (view.items theory.entry.items.items) }) }
    ensures places { IfOk result (λ t. view.spans t.items.items ≡ view.spans theory.entry.items.items) }
    ensures end { IfOk result (λ t. t.behind_end ≡ theory.entry.behind_end) }
{
    let name = theory.name;
    let behind_end = theory.behind_end;
    let items = items(alloc, symbols, theory.items)?;
    Ok(ReadTheory {
        name,
        items,
        behind_end,
    })
}
