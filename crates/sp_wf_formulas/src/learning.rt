// Whether a restriction names the action of learning.

ghost use Rattle.std.specs.Prelude.{◌≡◌, OnOk};
ghost use Rattle.sp_finding.specs.Finding.{lines_after};
ghost use Rattle.sp_lines.specs.TextsView.{texts_of};
ghost use Rattle.sp_written.specs.Views as view;
ghost use Rattle.sp_wf_formulas.specs.FormulaFindings as spec;

use sp_finding::{Finding, names_learning, tell_if};
use sp_lines::Texts;
use sp_written::WrittenRestriction;
use std::alloc::{AllocError, Global};

/// Tells of the restriction where it names the action of learning.
///
/// # Errors
///
/// `AllocError` where memory is wanting.
pub fn tell_learning(
    alloc: Global,
    lines: &mut Texts,
    restriction: &WrittenRestriction,
) -> Result<(), AllocError>
    ensures { OnOk result (texts_of lines.new ≡ lines_after (texts_of lines.old) (spec.learning_in_restriction (view.restriction restriction.now))) }
{
    let is_wrong = names_learning(&restriction.formula);
    tell_if(
        alloc,
        lines,
        is_wrong,
        Finding::RestrictsLearning(restriction.name),
    )
}
