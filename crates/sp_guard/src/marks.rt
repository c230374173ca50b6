// The findings on a written formula, and its guarded form where there are none.

ghost use Rattle.std.specs.Prelude.{◌≡◌, [], ◌∷◌, ◌++◌, ◌&&◌, not, if◌then◌else◌, Some, None, IfOk, map, option_map};
ghost use Rattle.sp_spec.specs.Written.{in_term, in_terms};
ghost use Rattle.sp_spec.specs.Findings.{is_wide};
ghost use Rattle.sp_spec_text.specs.Shapes.{quantified};
ghost use Rattle.sp_spec_text.specs.Formulas.{quantified_some};
ghost use Rattle.sp_read_parts.specs.Views as view;
ghost use Rattle.sp_spec.specs.Formula as formulas;
ghost use Rattle.sp_read_parts.specs.Formulas.{Joint};
ghost use Rattle.sp_read_parts.specs.Formulas as written;
ghost use Rattle.sp_formula.specs.FormulaView.{formula_of};
ghost use Rattle.sp_law_guard.specs.GuardedForm as forms;
ghost use Rattle.sp_law_guard.specs.IsGuarded.{is_guarded};
ghost use Rattle.sp_law_guard.specs.CheckedForm as spec;
ghost use Rattle.sp_guard.specs.View.{innermost_first};
ghost use Rattle.sp_guard.specs.Wide.{is_wide_atom};

use crate::form::{guarded_form, within};
use crate::guarded::is_guarded;
use crate::meaning::{Meaning, meant};
use sp_formula::formula::Formula;
use sp_read_parts::{Mark, ReadFormula, WrittenAction, WrittenTerm, WrittenVariable};
use sp_term::leaves::{Tests, each_leaf, each_leaf_of_all};
use sp_walk::{ReadAtom, TestsAtoms, any_atom};
use std::alloc::{AllocError, Global};

/// Whether a message marked like this can be what the binder with the other mark binds.
fn is_same_mark(mark: Mark, binder: Mark) -> bool
    ensures { result ≡ spec.same_mark (view.mark mark) (view.mark binder) }
{
    match (mark, binder) {
        (Mark::Bare, _) => true,
        (Mark::Message, Mark::Bare | Mark::Message) => true,
        (Mark::Fresh, Mark::Fresh) => true,
        (Mark::Public, Mark::Public) => true,
        _ => false,
    }
}

/// Whether a variable inside these binders is marked like the binder that it means.
#[derive(Clone, Copy)]
struct Fits<'a, 'b> {
    binders: &'a Vec<WrittenVariable<'b>>,
}

impl<'a, 'b> Tests<WrittenVariable<'b>> for Fits<'a, 'b> {
    ghost Kind = { formulas.Written };

    ghost leaf_of = { view.variable };

    ghost test_of = { λ t x. spec.fits x.mark (forms.meant (innermost_first t.binders.now.items) x.name) };

    fn passes(&self, variable: &WrittenVariable<'b>) -> bool {
        match meant(self.binders, variable.name) {
            None => true,
            Some(Meaning::Message(binder, _)) => is_same_mark(variable.mark, binder),
            Some(Meaning::Time(_)) => matches!(variable.mark, Mark::Bare | Mark::Time),
        }
    }
}

/// Whether each variable of the action and its time fit their binders.
fn action_fits<'a>(
    binders: &Vec<WrittenVariable<'a>>,
    action: &WrittenAction<'a>,
    at: &WrittenVariable<'a>,
) -> bool
    ensures { result ≡ spec.each_fits (innermost_first binders.now.items) (in_terms (view.terms action.now.args.items) ++ (view.variable at.now ∷ [])) }
{
    let fits = Fits { binders };
    let args = each_leaf_of_all(&fits, &action.args);
    let time = fits.passes(at);
    args && time
}

/// Whether each variable of both terms fits its binder.
fn equality_fits<'a>(
    binders: &Vec<WrittenVariable<'a>>,
    left: &WrittenTerm<'a>,
    right: &WrittenTerm<'a>,
) -> bool
    ensures { result ≡ spec.each_fits (innermost_first binders.now.items) (in_term (view.term left.now) ++ in_term (view.term right.now)) }
{
    let fits = Fits { binders };
    let first = each_leaf(&fits, left);
    let second = each_leaf(&fits, right);
    first && second
}

/// Whether both times fit their binders.
#[tactic(auto, using(crate::proofs::MarksFit::one_fits))]
fn order_fits<'a>(
    binders: &Vec<WrittenVariable<'a>>,
    left: &WrittenVariable<'a>,
    right: &WrittenVariable<'a>,
) -> bool
    ensures { result ≡ spec.each_fits (innermost_first binders.now.items) (view.variable left.now ∷ view.variable right.now ∷ []) }
{
    let fits = Fits { binders };
    let first = fits.passes(left);
    let second = fits.passes(right);
    first && second
}

/// Whether the variables inside these binders are marked as their binders are.
///
/// # Errors
///
/// `AllocError` where memory is wanting.
#[cycle(marks)]
#[tactic(auto, using(crate::proofs::MarksFit::both_ways, crate::proofs::MarksFit::fit_for_all, crate::proofs::MarksFit::fit_for_some))]
pub fn marks_fit<'a>(
    alloc: Global,
    binders: &Vec<WrittenVariable<'a>>,
    formula: &ReadFormula<'a>,
) -> Result<bool, AllocError>
    ensures { IfOk result (λ b. b ≡ spec.marks_fit (innermost_first binders.now.items) (written.formula formula.now)) }
{
    match formula {
        ReadFormula::True | ReadFormula::False => Ok(true),
        ReadFormula::Happens(action, at) => Ok(action_fits(binders, action, at)),
        ReadFormula::Equals(left, right) => Ok(equality_fits(binders, left, right)),
        ReadFormula::Precedes(left, right) => Ok(order_fits(binders, left, right)),
        ReadFormula::Not(denied) => marks_fit(alloc, binders, denied),
        ReadFormula::Both(left, right, more) | ReadFormula::Either(left, right, more) => {
            let first = marks_fit(alloc, binders, left)?;
            let second = marks_fit(alloc, binders, right)?;
            and_fit(alloc, binders, first && second, more)
        }
        ReadFormula::Implies(left, right) => {
            let first = marks_fit(alloc, binders, left)?;
            let second = marks_fit(alloc, binders, right)?;
            Ok(first && second)
        }
        ReadFormula::Equivalent(left, right) => {
            let first = marks_fit(alloc, binders, left)?;
            let second = marks_fit(alloc, binders, right)?;
            Ok(first && second)
        }
        ReadFormula::ForAll(more, body) => {
            let inner = within(alloc, &*binders, &*more)?;
            marks_fit(alloc, &inner, body)
        }
        ReadFormula::ForSome(more, body) => {
            let inner = within(alloc, &*binders, &*more)?;
            marks_fit(alloc, &inner, body)
        }
    }
}

// Whether this is so, and the variables of the formulas that follow are marked as their binders are.
#[cycle(marks)]
fn and_fit<'a>(
    alloc: Global,
    binders: &Vec<WrittenVariable<'a>>,
    so_far: bool,
    more: &Vec<ReadFormula<'a>>,
) -> Result<bool, AllocError>
    ensures { IfOk result (λ b. (o : Joint) (f : formulas.Formula) → so_far ≡ spec.marks_fit (innermost_first binders.now.items) f
        → b ≡ spec.marks_fit (innermost_first binders.now.items) (written.chain o f (map written.formula more.now.items))) }
{
    let mut fit = so_far;
    for part in more {
        let next = marks_fit(alloc, binders, part)?;
        fit = fit && next;
    }
    Ok(fit)
}

#[tactic(auto, using(crate::proofs::MarksFit::wide_length))]
fn is_wide_action(action: &WrittenAction) -> bool
    ensures { result ≡ is_wide (view.terms action.now.args.items) }
{
    action.args.len() > 16
}

/// Whether an atom is an action with too many arguments.
#[derive(Clone, Copy)]
struct IsWide;

impl TestsAtoms for IsWide {
    ghost test_of = { λ t. is_wide_atom };

    fn passes(&self, atom: ReadAtom) -> bool {
        match atom {
            ReadAtom::Happens(action, _) => is_wide_action(action),
            _ => false,
        }
    }
}

/// Whether an action of the formula has too many arguments.
#[tactic(auto, using(crate::proofs::MarksFit::any_wide))]
pub fn has_wide(formula: &ReadFormula) -> bool
    ensures { result ≡ spec.has_wide (written.formula formula.now) }
{
    any_atom(&IsWide, formula)
}

// Whether the formula's variables are marked as their binders are, and no action of it has too many arguments.
fn is_plain(alloc: Global, formula: &ReadFormula) -> Result<bool, AllocError>
    ensures { IfOk result (λ b. b ≡ (spec.marks_fit [] (written.formula formula.now) && not (spec.has_wide (written.formula formula.now)))) }
{
    let none = Vec::new(alloc);
    let fit = marks_fit(alloc, &none, formula)?;
    let wide = has_wide(formula);
    Ok(fit && !wide)
}

// The guarded form of a formula outside of all binders.
fn closed_form(alloc: Global, formula: &ReadFormula) -> Result<Option<Formula>, AllocError>
    ensures { IfOk result (λ o. option_map formula_of o ≡ forms.guarded_form [] (written.formula formula.now)) }
{
    let none = Vec::new(alloc);
    guarded_form(alloc, &none, formula)
}

// The form, where it is guarded and its formula is plain.
fn if_guarded(form: Formula, plain: bool) -> Option<Formula>
    ensures { option_map formula_of result ≡ (if is_guarded (formula_of form) && plain then Some (formula_of form) else None) }
{
    let right = is_guarded(&form) && plain;
    right.then_some(form)
}

/// The guarded form of the formula. None where it has none, or there are findings on it.
///
/// # Errors
///
/// `AllocError` where memory is wanting.
pub fn checked_form(alloc: Global, formula: &ReadFormula) -> Result<Option<Formula>, AllocError>
    ensures { IfOk result (λ o. option_map formula_of o ≡ spec.checked_form (written.formula formula.now)) }
{
    let plain = is_plain(alloc, formula)?;
    let Some(form) = closed_form(alloc, formula)? else {
        return Ok(None);
    };
    Ok(if_guarded(form, plain))
}
