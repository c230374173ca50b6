// Whether destructors stand in a formula.

ghost use Rattle.std.specs.Prelude.{◌≡◌, ◌||◌, OnOk, map};
ghost use Rattle.sp_fact.specs.GroundView.{equation_of};
ghost use Rattle.sp_read_parts.specs.Views as parts;
ghost use Rattle.sp_read_parts.specs.Formulas as written;
ghost use Rattle.sp_finding.specs.Finding.{lines_after};
ghost use Rattle.sp_finding.specs.TermFindings.{has_destructor};
ghost use Rattle.sp_lines.specs.TextsView.{texts_of};
ghost use Rattle.sp_wf_formulas.specs.Atoms.{atom_has_destructor};
ghost use Rattle.sp_wf_formulas.specs.FormulaFindings as spec;
ghost use Rattle.sp_wf_formulas.specs.Statements.{statement};

use sp_fact::signature::Equation;
use sp_finding::{Finding, FormulaFinding, has_destructor, have_destructor, tell_if};
use sp_lines::Texts;
use sp_read_parts::{ReadFormula, WrittenTerm};
use sp_walk::{ReadAtom, TestsAtoms, any_atom};
use std::alloc::{AllocError, Global};

/// Whether a destructor stands on one of two sides.
fn have_destructors(equations: &Vec<Equation>, left: &WrittenTerm, right: &WrittenTerm) -> bool
    ensures { result ≡ (has_destructor (map equation_of equations.now.items) (parts.term left.now) || has_destructor (map equation_of equations.now.items) (parts.term right.now)) }
{
    has_destructor(equations, left) || has_destructor(equations, right)
}

/// Whether a destructor by these equations stands in an atom.
#[derive(Clone, Copy)]
struct HasDestructor<'e> {
    equations: &'e Vec<Equation>,
}

impl<'e> TestsAtoms for HasDestructor<'e> {
    ghost test_of = { λ t. atom_has_destructor (map equation_of t.equations.now.items) };

    fn passes(&self, atom: ReadAtom) -> bool {
        match atom {
            ReadAtom::Happens(action, _) => have_destructor(self.equations, &action.args),
            ReadAtom::Equals(left, right) => have_destructors(self.equations, left, right),
            ReadAtom::Precedes(_, _) => false,
        }
    }
}

/// Whether a destructor stands in the formula.
#[tactic(auto, using(crate::proofs::OnTerms::any_destructor))]
pub fn formula_has_destructor(equations: &Vec<Equation>, formula: &ReadFormula) -> bool
    ensures { result ≡ spec.formula_has_destructor (map equation_of equations.now.items) (written.formula formula.now) }
{
    any_atom(&HasDestructor { equations }, formula)
}

/// Tells of the formula of this name where a destructor stands in it.
///
/// # Errors
///
/// `AllocError` where memory is wanting.
pub fn tell_formula_destructors(
    alloc: Global,
    lines: &mut Texts,
    equations: &Vec<Equation>,
    name: &str,
    formula: &ReadFormula,
) -> Result<(), AllocError>
    ensures { OnOk result (texts_of lines.new ≡ lines_after (texts_of lines.old) (spec.destructors_in_lemma (map equation_of equations.now.items) (statement name.now (written.formula formula.now)))) }
{
    let is_wrong = formula_has_destructor(equations, formula);
    let finding = Finding::OnFormula(name, FormulaFinding::Destructor);
    tell_if(alloc, lines, is_wrong, finding)
}
