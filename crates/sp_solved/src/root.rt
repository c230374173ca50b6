// What a proof begins from.

ghost use Rattle.std.specs.Prelude.{◌≡◌, IfOk, OnOk, map, ◌++◌};
ghost use Rattle.sp_formula.specs.FormulaView.{formula_of};
ghost use Rattle.sp_spec_system.specs.Move.{root_formulas};
ghost use Rattle.sp_solved.specs.View.{root_of};

use sp_formula::formula::Formula;
use std::alloc::{AllocError, Global};

/// What both cases of an induction begin with.
#[derive(Clone, Copy)]
pub struct InductionCases<'a> {
    /// the trace is empty
    pub empty_trace: &'a Vec<Formula>,
    /// the trace isn't empty
    pub non_empty_trace: &'a Vec<Formula>,
}

/// What a proof of a lemma begins from, by guarded forms.
#[derive(Clone, Copy)]
pub struct Root<'a> {
    /// the restrictions, in the order of the text
    pub restrictions: &'a Vec<Formula>,
    /// the lemmas that are taken
    pub taken: &'a Vec<Formula>,
    /// what is sought: the negation of a lemma on all traces, one on some trace as it is
    pub sought: &'a Formula,
    /// whether its first move is to be `induction`
    pub begins_with_induction: bool,
    /// whether the kinds of moves on premises and messages count as one
    pub consecutive: bool,
    /// the cases of its induction, which a lemma on all traces may have
    pub cases: Option<InductionCases<'a>>,
}

/// Puts the formulas at the end.
fn push_all(formulas: &mut Vec<Formula>, more: &Vec<Formula>) -> Result<(), AllocError>
    ensures { OnOk result (map formula_of formulas.new.items ≡ map formula_of formulas.old.items ++ map formula_of more.now.items) }
{
    for formula in more {
        formulas.push(formula.clone()?)?;
    }
    Ok(())
}

impl<'a> Root<'a> {
    /// The formulas with which the proof begins: the restrictions, what is taken, and what is sought.
    ///
    /// # Errors
    ///
    /// `AllocError` where memory is wanting.
    pub fn formulas(&self, alloc: Global) -> Result<Vec<Formula>, AllocError>
        ensures { IfOk result (λ fs. map formula_of fs.items ≡ root_formulas (root_of self.now)) }
    {
        let mut formulas = Vec::new(alloc);
        push_all(&mut formulas, self.restrictions)?;
        push_all(&mut formulas, self.taken)?;
        formulas.push(self.sought.clone()?)?;
        Ok(formulas)
    }
}
