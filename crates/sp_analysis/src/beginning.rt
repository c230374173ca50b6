// What the proof of a lemma begins from.

ghost use Rattle.std.specs.Prelude.{◌≡◌, IfOk, map, option_map};
ghost use Rattle.std.specs.List.{list_any};
ghost use Rattle.sp_written.specs.Views as view;
ghost use Rattle.sp_formula.specs.FormulaView.{formula_of};
ghost use Rattle.sp_solved.specs.View as solved;
ghost use Rattle.sp_pose.specs.Asked as ask;
ghost use Rattle.sp_analysis.specs.Sought as spec;
ghost use Rattle.sp_analysis.specs.Printed as print;
ghost use Rattle.sp_analysis.specs.View.{setting_in, taken_of, cases_in, begun_from};

use crate::setting::Setting;
use crate::taken::{Taken, taken_for};
use sp_formula::formula::Formula;
use sp_guard::negate::negate;
use sp_hypothesis::cases::{Cases, cases_of};
use sp_pose::GuardedLemma;
use sp_solved::{InductionCases, Root};
use sp_written::{Attribute, TraceKind};
use std::alloc::{AllocError, Global};

/// What the root of a lemma's proof has of its own.
#[derive(Drop)]
pub struct Beginning {
    /// the lemmas that are taken
    taken: Vec<Formula>,
    /// what is sought
    sought: Formula,
    /// whether the first move is to be `induction`
    by_induction: bool,
    /// whether the kinds of moves on premises and messages count as one
    consecutive: bool,
    /// the cases of the induction, of a lemma on all traces
    cases: Option<Cases>,
}

/// Whether a lemma with the attribute is to be proved by induction.
fn marks_induction(attribute: &Attribute) -> bool
    ensures { result ≡ spec.marks_induction (view.attribute attribute.now) }
{
    match attribute {
        Attribute::ByInduction | Attribute::OfSources => true,
        _ => false,
    }
}

/// Whether one with these attributes is.
fn is_inductive(attributes: &Vec<Attribute>) -> bool
    ensures { result ≡ list_any spec.marks_induction (view.attributes attributes.now.items) }
{
    for attribute in attributes {
        if marks_induction(attribute) {
            return true;
        }
    }
    false
}

/// Whether the proof of a lemma of this kind is to begin with induction.
fn begins_by(kind: TraceKind, attributes: &Vec<Attribute>) -> bool
    ensures { result ≡ spec.begins_by (view.kind kind) (view.attributes attributes.now.items) }
{
    match kind {
        TraceKind::AllTraces => is_inductive(attributes),
        TraceKind::ExistsTrace => false,
    }
}

/// Whether the word asks that kinds of moves on premises and messages count as one.
fn asks_consecutive(word: &str) -> bool
    ensures { result ≡ spec.asks_consecutive word.now }
{
    match word.as_bytes().first() {
        Some(byte) => *byte == b'c',
        None => false,
    }
}

/// What is asked once the attribute has been read.
fn asked_by(attribute: &Attribute, before: bool) -> bool
    ensures { result ≡ spec.asked_by (view.attribute attribute.now) before }
{
    match attribute {
        Attribute::RankedBy(word) => asks_consecutive(word),
        _ => before,
    }
}

/// What is asked once these have been read.
fn is_consecutive(before: bool, attributes: &Vec<Attribute>) -> bool
    ensures { result ≡ spec.is_consecutive before (view.attributes attributes.now.items) }
{
    let mut asked = before;
    for attribute in attributes {
        asked = asked_by(attribute, asked);
    }
    asked
}

/// What a proof of a lemma of this kind looks for, by its guarded form.
fn sought(alloc: Global, kind: TraceKind, form: &Formula) -> Result<Formula, AllocError>
    ensures { IfOk result (λ f. formula_of f ≡ spec.sought (view.kind kind) (formula_of form.now)) }
{
    let form = form.clone()?;
    match kind {
        TraceKind::AllTraces => negate(alloc, form),
        TraceKind::ExistsTrace => Ok(form),
    }
}

/// The cases of the lemma's induction, if it is on all traces.
fn cases_for(
    alloc: Global,
    restrictions: &Vec<Formula>,
    taken: &Vec<Formula>,
    kind: TraceKind,
    form: &Formula,
) -> Result<Option<Cases>, AllocError>
    ensures { IfOk result (λ o. option_map cases_in o ≡ spec.cases_for (map formula_of restrictions.now.items) (map formula_of taken.now.items) (view.kind kind) (formula_of form.now)) }
{
    match kind {
        TraceKind::AllTraces => {
            let cases = cases_of(alloc, restrictions, taken, form)?;
            Ok(Some(cases))
        }
        TraceKind::ExistsTrace => Ok(None),
    }
}

/// What a proof of the lemma begins from, where these were given by those before it.
///
/// # Errors
///
/// `AllocError` where memory is wanting.
pub fn beginning_of(
    alloc: Global,
    setting: &Setting,
    taken: &Vec<Taken>,
    lemma: &GuardedLemma,
) -> Result<Beginning, AllocError>
    ensures { IfOk result (λ b. begun_from (setting_in setting.now) b ≡ print.root_for (setting_in setting.now) (map taken_of taken.now.items) (ask.asked_of lemma.now)) }
{
    let taken = taken_for(alloc, &lemma.attributes, taken)?;
    let sought = sought(alloc, lemma.kind, &lemma.form)?;
    let by_induction = begins_by(lemma.kind, &lemma.attributes);
    let of_text = is_consecutive(false, &setting.ranking);
    let consecutive = is_consecutive(of_text, &lemma.attributes);
    let cases = cases_for(
        alloc,
        &setting.restrictions,
        &taken,
        lemma.kind,
        &lemma.form,
    )?;
    Ok(Beginning {
        taken,
        sought,
        by_induction,
        consecutive,
        cases,
    })
}

/// The cases, borrowed.
fn borrowed(cases: &Option<Cases>) -> Option<InductionCases>
    ensures { option_map solved.cases_of result ≡ option_map cases_in cases.now }
{
    match cases {
        Some(cases) => Some(InductionCases {
            empty_trace: &cases.empty_trace,
            non_empty_trace: &cases.non_empty_trace,
        }),
        None => None,
    }
}

impl Beginning {
    /// The root of the proof.
    pub fn root<'a>(&'a self, setting: &'a Setting) -> Root<'a>
        ensures { solved.root_of result ≡ begun_from (setting_in setting.now) self.now }
    {
        Root {
            restrictions: &setting.restrictions,
            taken: &self.taken,
            sought: &self.sought,
            begins_with_induction: self.by_induction,
            consecutive: self.consecutive,
            cases: borrowed(&self.cases),
        }
    }
}
