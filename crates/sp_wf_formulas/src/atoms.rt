// The findings on the terms of a formula, whatever binds their variables.

ghost use Rattle.std.specs.Prelude.{◌≡◌, ℕ, List, OnOk, refl};
ghost use Rattle.sp_read_parts.specs.Views as parts;
ghost use Rattle.sp_read_parts.specs.Formulas as written;
ghost use Rattle.sp_wf_formulas.specs.Atoms as spec;
ghost use Rattle.sp_finding.proofs.Telling.{told_both, both_orders};
ghost use Rattle.sp_finding.specs.Finding as findings;
ghost use Rattle.sp_finding.specs.Finding.{lines_after};
ghost use Rattle.sp_lines.specs.TextsView.{texts_of};

use sp_finding::{Finding, KnownSymbols, are_too_many, tell_if, tell_unknown, tell_unknown_in_all};
use sp_lines::Texts;
use sp_read_parts::{ReadFormula, WrittenAction, WrittenTerm, WrittenVariable};
use sp_walk::{Collects, ReadAtom, collect_closed};
use std::alloc::{AllocError, Global};

/// What may be wrong with the terms of a formula.
#[derive(Clone, Copy)]
pub enum TermFault<'a> {
    /// an action has too many arguments
    Wide,
    /// a symbol is none of these
    Unknown(&'a KnownSymbols<'a>),
}

/// Tells of what is looked for, in the arguments of an action.
fn tell_action(
    alloc: Global,
    lines: &mut Texts,
    fault: TermFault,
    action: &WrittenAction,
) -> Result<(), AllocError>
    ensures { OnOk result (texts_of lines.new ≡ lines_after (texts_of lines.old) (spec.on_action (spec.fault_of fault.entry) (parts.action_of action.now))) }
{
    match fault {
        TermFault::Wide => {
            let is_wrong = are_too_many(&action.args);
            let finding = Finding::ArityAbove(action.symbol.text.as_str());
            tell_if(alloc, lines, is_wrong, finding)
        }
        TermFault::Unknown(symbols) => tell_unknown_in_all(alloc, lines, symbols, &action.args),
    }
}

/// Tells of what is looked for, on both sides of an equation.
#[tactic(auto, using(sp_finding::proofs::Telling::told_both))]
fn tell_sides(
    alloc: Global,
    lines: &mut Texts,
    fault: TermFault,
    left: &WrittenTerm,
    right: &WrittenTerm,
) -> Result<(), AllocError>
    ensures { OnOk result (texts_of lines.new ≡ lines_after (texts_of lines.old) (spec.on_sides (spec.fault_of fault.entry) (parts.term left.now) (parts.term right.now))) }
{
    match fault {
        TermFault::Wide => Ok(()),
        TermFault::Unknown(symbols) => {
            tell_unknown(alloc, lines, symbols, left)?;
            tell_unknown(alloc, lines, symbols, right)?;
            Ok(())
        }
    }
}

// What is told of an atom, whatever binds its variables.
impl<'f> Collects<Texts> for TermFault<'f> {
    ghost Item = { findings.Finding };

    ghost Seen = { List (List ℕ) };

    ghost seen_of = { λ lines. texts_of lines };

    ghost gives = { λ t bs. spec.on_atom (spec.fault_of t) };

    ghost after = { lines_after };

    fn collect<'a>(
        &self,
        alloc: Global,
        lines: &mut Texts,
        _binders: &Vec<WrittenVariable<'a>>,
        atom: ReadAtom<'_, 'a>,
    ) -> Result<(), AllocError> {
        match atom {
            ReadAtom::Happens(action, _) => tell_action(alloc, lines, *self, action),
            ReadAtom::Equals(left, right) => tell_sides(alloc, lines, *self, left, right),
            ReadAtom::Precedes(_, _) => Ok(()),
        }
    }

    ghost none_changes = { λ ls. refl };

    ghost one_by_one = { λ ls xs ys. told_both xs ls ys };

    ghost not_again = { λ ls xs ys. both_orders xs ys ls };
}

/// Tells of what is looked for, in the terms of the formula.
///
/// # Errors
///
/// `AllocError` where memory is wanting.
pub fn tell_terms_of(
    alloc: Global,
    lines: &mut Texts,
    fault: TermFault,
    formula: &ReadFormula,
) -> Result<(), AllocError>
    ensures { OnOk result (texts_of lines.new ≡ lines_after (texts_of lines.old) (spec.on_terms (spec.fault_of fault.entry) (written.formula formula.now))) }
{
    collect_closed(alloc, &fault, lines, formula)
}
