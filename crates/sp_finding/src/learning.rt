// Whether a formula speaks of what the adversary learns.

ghost use Rattle.std.specs.Prelude.{◌≡◌};
ghost use Rattle.sp_spec.specs.Verdict as spec;
ghost use Rattle.sp_read_parts.specs.Formulas as written;
ghost use Rattle.sp_finding.specs.Learning.{is_learning};

use sp_read_parts::ReadFormula;
use sp_walk::{ReadAtom, TestsAtoms, any_atom};

/// Whether an atom is an action of learning.
#[derive(Clone, Copy)]
struct IsLearning;

impl TestsAtoms for IsLearning {
    ghost test_of = { λ t. is_learning };

    fn passes(&self, atom: ReadAtom) -> bool {
        match atom {
            ReadAtom::Happens(action, _) => action.symbol.text.as_str() == "KU",
            _ => false,
        }
    }
}

/// Whether the formula names the action of learning.
#[tactic(auto, using(crate::proofs::Learnt::any_learning))]
pub fn names_learning(formula: &ReadFormula) -> bool
    ensures { result ≡ spec.names_learning (written.formula formula.now) }
{
    any_atom(&IsLearning, formula)
}
