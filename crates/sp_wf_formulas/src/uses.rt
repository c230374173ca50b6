// The findings on the variables of a formula where they are used.

ghost use Rattle.std.specs.Prelude.{◌≡◌, ℕ, List, [], ◌∷◌, ◌++◌, OnOk, option_map, refl};
ghost use Rattle.sp_spec.specs.Written.{in_term, in_terms};
ghost use Rattle.sp_read_parts.specs.Views as view;
ghost use Rattle.sp_law_guard.specs.GuardedForm as forms;
ghost use Rattle.sp_law_guard.specs.CheckedForm as checked;
ghost use Rattle.sp_guard.specs.View.{meaning_of, innermost_first};
ghost use Rattle.sp_wf_formulas.specs.FormulaFindings as spec;
ghost use Rattle.sp_finding.proofs.Telling.{told_both, both_orders};
ghost use Rattle.sp_finding.specs.Finding as findings;
ghost use Rattle.sp_finding.specs.Finding.{lines_after};
ghost use Rattle.sp_wf_formulas.specs.Atoms.{uses_at};
ghost use Rattle.sp_wf_formulas.specs.Sought.{is_sought, said, sought, is_there, role_view, sought_view, used};
ghost use Rattle.sp_finding.specs.View.{finding_of};
ghost use Rattle.sp_lines.specs.TextsView.{texts_of};

use sp_finding::{Finding, FormulaFinding, tell_if};
use sp_guard::meaning::{Meaning, meant};
use sp_lines::Texts;
use sp_read_parts::{Mark, WrittenAction, WrittenTerm, WrittenVariable};
use sp_term::term::Term;
use sp_walk::{Collects, ReadAtom};
use std::alloc::{AllocError, Global};

/// What has to stand at a place.
#[derive(Clone, Copy)]
pub enum Role {
    Message,
    Time,
}

/// What is looked for.
#[derive(Clone, Copy)]
pub enum Sought {
    /// a variable without a binder
    Unbound,
    /// a variable that is marked with another sort than its binder
    OtherSort,
    /// a time that stands for a message, or a message that stands for a time
    Mixed,
}

/// What is looked for, in the formula of this name.
#[derive(Clone, Copy)]
pub struct Search<'a> {
    pub sought: Sought,
    pub formula: &'a str,
}

/// Whether a message marked like this can be what the binder with the other mark binds.
fn is_same_mark(mark: Mark, binder: Mark) -> bool
    ensures { result ≡ checked.same_mark (view.mark mark) (view.mark binder) }
{
    match (mark, binder) {
        (Mark::Bare, _) => true,
        (Mark::Message, Mark::Bare | Mark::Message) => true,
        (Mark::Fresh, Mark::Fresh) => true,
        (Mark::Public, Mark::Public) => true,
        _ => false,
    }
}

/// Whether a variable with this mark fits what its name means.
fn fits(mark: Mark, meaning: Option<Meaning>) -> bool
    ensures { result ≡ checked.fits (view.mark mark) (option_map meaning_of meaning) }
{
    match meaning {
        None => true,
        Some(Meaning::Message(binder, _)) => is_same_mark(mark, binder),
        Some(Meaning::Time(_)) => matches!(mark, Mark::Bare | Mark::Time),
    }
}

/// Whether a time stands for a message, or a message for a time.
fn is_mixed(role: Role, meaning: Option<Meaning>) -> bool
    ensures { result ≡ spec.is_mixed (role_view role) (option_map meaning_of meaning) }
{
    match (role, meaning) {
        (Role::Message, Some(Meaning::Time(_))) => true,
        (Role::Time, Some(Meaning::Message(_, _))) => true,
        _ => false,
    }
}

/// Whether what is looked for stands at this use of a variable.
fn stands_at(sought: Sought, role: Role, mark: Mark, meaning: Option<Meaning>) -> bool
    ensures { result ≡ is_sought (sought_view sought) (role_view role) (view.mark mark) (option_map meaning_of meaning) }
{
    match sought {
        Sought::Unbound => meaning.is_none(),
        Sought::OtherSort => !fits(mark, meaning),
        Sought::Mixed => is_mixed(role, meaning),
    }
}

/// The finding that is looked for, at a variable.
fn finding_at<'a>(search: Search<'a>, name: &'a str) -> Finding<'a>
    ensures { finding_of result ≡ said (sought_view search.entry.sought) search.entry.formula.now name.entry.now }
{
    let finding = match search.sought {
        Sought::Unbound => FormulaFinding::NotBound(name),
        Sought::OtherSort => FormulaFinding::OtherSort(name),
        Sought::Mixed => FormulaFinding::MixedAt(name),
    };
    Finding::OnFormula(search.formula, finding)
}

/// Tells of the variable, used in this role within the reach of these binders.
fn tell_use(
    alloc: Global,
    lines: &mut Texts,
    search: Search,
    binders: &Vec<WrittenVariable>,
    role: Role,
    variable: WrittenVariable,
) -> Result<(), AllocError>
    ensures { OnOk result (texts_of lines.new ≡ lines_after (texts_of lines.old) (used (sought_view search.entry.sought) search.entry.formula.now (role_view role) (innermost_first binders.now.items) (view.variable variable.entry ∷ []))) }
{
    let meaning = meant(binders, variable.name);
    let stands = stands_at(search.sought, role, variable.mark, meaning);
    tell_if(alloc, lines, stands, finding_at(search, variable.name))
}

/// Tells of the variables of the term.
#[cycle(terms)]
fn tell_term(
    alloc: Global,
    lines: &mut Texts,
    search: Search,
    binders: &Vec<WrittenVariable>,
    role: Role,
    term: &WrittenTerm,
) -> Result<(), AllocError>
    ensures { OnOk result (texts_of lines.new ≡ lines_after (texts_of lines.old) (used (sought_view search.entry.sought) search.entry.formula.now (role_view role) (innermost_first binders.now.items) (in_term (view.term term.now)))) }
{
    match term {
        Term::Var(variable) => tell_use(alloc, lines, search, binders, role, *variable),
        Term::Constant(_) | Term::FreshName(_) => Ok(()),
        Term::App(_, terms, _) => tell_terms(alloc, lines, search, binders, role, terms),
    }
}

/// Tells of the variables of the terms.
#[cycle(terms)]
fn tell_terms(
    alloc: Global,
    lines: &mut Texts,
    search: Search,
    binders: &Vec<WrittenVariable>,
    role: Role,
    terms: &Vec<WrittenTerm>,
) -> Result<(), AllocError>
    ensures { OnOk result (texts_of lines.new ≡ lines_after (texts_of lines.old) (used (sought_view search.entry.sought) search.entry.formula.now (role_view role) (innermost_first binders.now.items) (in_terms (view.terms terms.now.items)))) }
{
    for term in terms {
        tell_term(alloc, lines, search, binders, role, term)?;
    }
    Ok(())
}

/// Tells of the variables of an action and of its time.
fn tell_happening(
    alloc: Global,
    lines: &mut Texts,
    search: Search,
    binders: &Vec<WrittenVariable>,
    action: &WrittenAction,
    at: WrittenVariable,
) -> Result<(), AllocError>
    ensures { OnOk result (texts_of lines.new ≡ lines_after (texts_of lines.old) (sought (sought_view search.entry.sought) search.entry.formula.now (spec.uses_as spec.as_message (innermost_first binders.now.items) (in_terms (view.terms action.now.args.items)) ++ spec.uses_as spec.as_time (innermost_first binders.now.items) (view.variable at.entry ∷ [])))) }
{
    tell_terms(alloc, lines, search, binders, Role::Message, &action.args)?;
    tell_use(alloc, lines, search, binders, Role::Time, at)?;
    Ok(())
}

/// Tells of two times.
#[tactic(auto, using(sp_finding::proofs::Telling::told_on))]
fn tell_order(
    alloc: Global,
    lines: &mut Texts,
    search: Search,
    binders: &Vec<WrittenVariable>,
    left: WrittenVariable,
    right: WrittenVariable,
) -> Result<(), AllocError>
    ensures { OnOk result (texts_of lines.new ≡ lines_after (texts_of lines.old) (used (sought_view search.entry.sought) search.entry.formula.now spec.as_time (innermost_first binders.now.items) (view.variable left.entry ∷ view.variable right.entry ∷ []))) }
{
    tell_use(alloc, lines, search, binders, Role::Time, left)?;
    tell_use(alloc, lines, search, binders, Role::Time, right)?;
    Ok(())
}

/// Whether the term is a variable that means a time.
fn is_time(binders: &Vec<WrittenVariable>, term: &WrittenTerm) -> bool
    ensures { result ≡ is_there (forms.term_time (innermost_first binders.now.items) (view.term term.now)) }
{
    match term {
        Term::Var(variable) => matches!(meant(binders, variable.name), Some(Meaning::Time(_))),
        _ => false,
    }
}

/// What has to stand on both sides of an equation.
#[tactic(auto, using(crate::proofs::Using::both_times))]
fn role_of(binders: &Vec<WrittenVariable>, left: &WrittenTerm, right: &WrittenTerm) -> Role
    ensures { role_view result ≡ spec.role_of (forms.term_time (innermost_first binders.now.items) (view.term left.now)) (forms.term_time (innermost_first binders.now.items) (view.term right.now)) }
{
    let first = is_time(binders, left);
    let second = is_time(binders, right);
    if first && second {
        Role::Time
    } else {
        Role::Message
    }
}

/// Tells of the variables on both sides of an equation.
#[tactic(auto, using(crate::proofs::Using::used_on))]
fn tell_equation(
    alloc: Global,
    lines: &mut Texts,
    search: Search,
    binders: &Vec<WrittenVariable>,
    left: &WrittenTerm,
    right: &WrittenTerm,
) -> Result<(), AllocError>
    ensures { OnOk result (texts_of lines.new ≡ lines_after (texts_of lines.old) (used (sought_view search.entry.sought) search.entry.formula.now (spec.role_of (forms.term_time (innermost_first binders.now.items) (view.term left.now)) (forms.term_time (innermost_first binders.now.items) (view.term right.now))) (innermost_first binders.now.items) (in_term (view.term left.now) ++ in_term (view.term right.now)))) }
{
    let role = role_of(binders, left, right);
    tell_term(alloc, lines, search, binders, role, left)?;
    tell_term(alloc, lines, search, binders, role, right)?;
    Ok(())
}

// What is told of the variables of an atom.
impl<'s> Collects<Texts> for Search<'s> {
    ghost Item = { findings.Finding };

    ghost Seen = { List (List ℕ) };

    ghost seen_of = { λ lines. texts_of lines };

    ghost gives = { λ t bs a. sought (sought_view t.sought) t.formula.now (uses_at bs a) };

    ghost after = { lines_after };

    fn collect<'a>(
        &self,
        alloc: Global,
        lines: &mut Texts,
        binders: &Vec<WrittenVariable<'a>>,
        atom: ReadAtom<'_, 'a>,
    ) -> Result<(), AllocError> {
        match atom {
            ReadAtom::Happens(action, at) => {
                tell_happening(alloc, lines, *self, binders, action, at)
            }
            ReadAtom::Equals(left, right) => {
                tell_equation(alloc, lines, *self, binders, left, right)
            }
            ReadAtom::Precedes(left, right) => {
                tell_order(alloc, lines, *self, binders, left, right)
            }
        }
    }

    ghost none_changes = { λ ls. refl };

    ghost one_by_one = { λ ls xs ys. told_both xs ls ys };

    ghost not_again = { λ ls xs ys. both_orders xs ys ls };
}
