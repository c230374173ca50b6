// Formulas that copies share.

ghost use Rattle.std.specs.Prelude.{◌≡◌, IfOk, map, true};
ghost use Rattle.sp_spec.specs.Change.{changed, free_change, time_replaced};
ghost use Rattle.sp_spec.specs.Substitution.{bound_to};
ghost use Rattle.sp_spec.specs.SameFormula as spec;
ghost use Rattle.sp_spec.specs.Guarded.{guardeds_of};
ghost use Rattle.sp_term.specs.Bindings.{bindings};
ghost use Rattle.sp_formula.specs.FormulaView.{formula_of};
ghost use Rattle.sp_formula.specs.Fingerprint.{fingerprint};
ghost use Rattle.sp_formula.specs.Staying.{formulas_stay};

use crate::fingerprint::fingerprint;
use crate::formula::Formula;
use crate::same::same_formula;
use crate::staying::formula_stays;
use sp_shared::copies::Copies;
use sp_shared::shared::Shared;
use sp_term::subst::Subst;
use std::alloc::{AllocError, Global};
use std::marker::Model;
use std::ops::Deref;

/// A formula and its fingerprint; copies share the formula. In a clause it is the formula.
#[derive(Drop)]
pub struct SharedFormula {
    formula: Shared<Formula>,
    fingerprint: u64,
}

impl Model for SharedFormula {
    ghost use Rattle.std.specs.Prelude.{◌≡◌};
    ghost use Rattle.std.specs.Coded.{codes};
    ghost use Rattle.sp_formula.specs.declared.formula.Formula.{Formula};
    ghost use Rattle.sp_formula.specs.contracts.formula.Formula as kind;

    ghost Value = { Formula };

    ghost coded = { Prim.hlevel (codes, kind.the_row.coded) };

    ghost use Rattle.sp_formula.specs.FormulaView.{formula_of};
    ghost use Rattle.sp_formula.specs.Fingerprint as print;

    ghost view = { λ s. s.formula };

    ghost invariant = { λ s. s.fingerprint ≡ print.fingerprint (formula_of s.formula) };
}

impl SharedFormula {
    /// The formula, with its fingerprint.
    ///
    /// # Errors
    ///
    /// `AllocError` where memory is wanting.
    pub fn new(alloc: Global, formula: Formula) -> Result<SharedFormula, AllocError>
        ensures { IfOk result (λ s. s ≡ formula) }
    {
        let fingerprint = fingerprint(&formula);
        let formula = Shared::new(alloc, formula)?;
        Ok(SharedFormula {
            formula,
            fingerprint,
        })
    }

    /// The formula's fingerprint.
    pub fn fingerprint(&self) -> u64
        ensures { result ≡ fingerprint (formula_of self.now) }
    {
        self.fingerprint
    }

    /// The formula.
    pub fn formula(&self) -> &Formula
        ensures { result.now ≡ self.now }
    {
        &self.formula
    }

    /// The same formula once more; it takes no memory.
    ///
    /// # Errors
    ///
    /// `AllocError` where there are more handles than can be counted.
    pub fn share(&self) -> Result<SharedFormula, AllocError>
        ensures { IfOk result (λ s. s ≡ self.now) }
    {
        let formula = self.formula.share()?;
        Ok(SharedFormula {
            formula,
            fingerprint: self.fingerprint,
        })
    }

    /// Whether it is the same as the formula that has this fingerprint, up to the names of bound variables.
    pub fn is_same(&self, formula: &Formula, print: u64) -> bool
        requires { print ≡ fingerprint (formula_of formula.now) }
        ensures { result ≡ spec.same_formula (formula_of self.now) (formula_of formula.now) }
    {
        self.fingerprint() == print && same_formula(self.formula(), formula)
    }

    /// The formula with each bound variable of the system replaced, and with `small` in place of `large`: the same one, where that
    /// changes nothing.
    ///
    /// # Errors
    ///
    /// `AllocError` where memory is wanting.
    #[tactic(auto, using(crate::proofs::Stays::formula_kept))]
    pub fn changed(
        &self,
        alloc: Global,
        subst: &Subst,
        small: u128,
        large: u128,
    ) -> Result<SharedFormula, AllocError>
        ensures { IfOk result (λ s. formula_of s ≡ changed (free_change (bound_to (bindings subst.now)) (time_replaced small large)) (formula_of self.now)) }
    {
        if formula_stays(subst, small, large, self.formula()) {
            let same = self.share()?;
            return Ok(same);
        }
        let made = self.formula().changed(alloc, subst, small, large)?;
        let shared = SharedFormula::new(alloc, made)?;
        Ok(shared)
    }
}

impl Copies for SharedFormula {
    fn copied(&self) -> Result<SharedFormula, AllocError> {
        self.share()
    }
}

impl Deref for SharedFormula {
    type Target = Formula;

    ghost deref_gives = { λ s f. f ≡ s };

    fn deref(&self) -> &Formula
        ensures { result.now ≡ self.now }
    {
        self.formula()
    }
}

/// The formulas, each with its fingerprint.
///
/// # Errors
///
/// `AllocError` where memory is wanting.
pub fn all_shared(alloc: Global, formulas: Vec<Formula>) -> Result<Vec<SharedFormula>, AllocError>
    ensures { IfOk result (λ made. made.items ≡ formulas.items) }
{
    let mut made = Vec::with_capacity(alloc, formulas.len())?;
    for formula in formulas {
        made.push(SharedFormula::new(alloc, formula)?)?;
    }
    Ok(made)
}

fn all_stay(subst: &Subst, small: u128, large: u128, formulas: &Vec<SharedFormula>) -> bool
    ensures { result ≡ formulas_stay (bindings subst.now) small large (guardeds_of (map formula_of formulas.now.items)) }
{
    for formula in formulas {
        if !formula_stays(subst, small, large, formula) {
            return false;
        }
    }
    true
}

fn each_changed(
    alloc: Global,
    subst: &Subst,
    small: u128,
    large: u128,
    formulas: &Vec<SharedFormula>,
) -> Result<Vec<SharedFormula>, AllocError>
    ensures { IfOk result (λ fs. map formula_of fs.items ≡ map (changed (free_change (bound_to (bindings subst.now)) (time_replaced small large))) (map formula_of formulas.now.items)) }
{
    let mut made = Vec::with_capacity(alloc, formulas.len())?;
    for formula in formulas {
        made.push(formula.changed(alloc, subst, small, large)?)?;
    }
    Ok(made)
}

/// The formulas with each bound variable of the system replaced, and with `small` in place of `large`: the same list, where that
/// changes nothing.
///
/// # Errors
///
/// `AllocError` where memory is wanting.
#[tactic(auto, using(crate::proofs::Stays::formulas_kept))]
pub fn changed_shared(
    alloc: Global,
    subst: &Subst,
    small: u128,
    large: u128,
    formulas: &Shared<Vec<SharedFormula>>,
) -> Result<Shared<Vec<SharedFormula>>, AllocError>
    ensures { IfOk result (λ fs. map formula_of fs.items ≡ map (changed (free_change (bound_to (bindings subst.now)) (time_replaced small large))) (map formula_of formulas.now.items)) }
{
    if all_stay(subst, small, large, formulas) {
        let same = formulas.share()?;
        return Ok(same);
    }
    let made = each_changed(alloc, subst, small, large, formulas)?;
    let shared = Shared::new(alloc, made)?;
    Ok(shared)
}
