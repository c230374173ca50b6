// What a text sets out to prove.

ghost use Rattle.std.specs.Prelude.{◌≡◌, ◌∷◌, [], ◌++◌, Some, None, IfOk, OnOk, MatchOption, length, map, option_map};
ghost use Rattle.sp_spec.specs.Written as written;
ghost use Rattle.sp_fact.specs.View.{rule_of};
ghost use Rattle.sp_declared.specs.WrittenRules.{rules_written};
ghost use Rattle.sp_spec_text.specs.Written.{restrictions_in};
ghost use Rattle.sp_written.specs.Views as view;
ghost use Rattle.sp_formula.specs.FormulaView.{formula_of};
ghost use Rattle.sp_law_guard.specs.CheckedForm as guard;
ghost use Rattle.sp_read_parts.specs.Formulas.{formula};
ghost use Rattle.sp_pose.specs.Asked.{asked_of, asked_with, asked_then, lemmas_read, all_asked};
ghost use Rattle.sp_pose.specs.Ranking.{first_ranking, item_ranking, rankings_in};
ghost use Rattle.sp_pose.specs.Required.{required_of, required_by, all_required};
ghost use Rattle.sp_fact.specs.GroundView.{signature_of};
ghost use Rattle.sp_wf.specs.Report.{text_of};
ghost use Rattle.sp_finding.specs.View.{lines_of};
ghost use Rattle.sp_warn.specs.Warnings as spec;
ghost use Rattle.sp_warn.specs.Warnings.{warnings_on};
ghost use Rattle.sp_pose.specs.Examined.{IsExamined};
ghost use Rattle.sp_pose.specs.Posed.{IsPosedBy, IsRead, IsMadeOf};

use crate::examined::{SaidTheory, examined, report};
use crate::numbering::numbered;
use sp_declared::public_names::constants;
use sp_declared::signature::signature;
use sp_fact::rule::Rule;
use sp_fact::signature::Signature;
use sp_finding::names_learning;
use sp_formula::formula::Formula;
use sp_guard::marks::checked_form;
use sp_term::term::Name;
use sp_warn::warnings;
use sp_written::{Attribute, Item, ReadTheory, Span, TraceKind, WrittenLemma, WrittenProof};
use std::alloc::{AllocError, Global};

/// A restriction without fatal findings.
#[derive(Drop)]
pub struct GuardedRestriction<'a> {
    /// its name
    pub name: &'a str,
    /// the guarded form of its formula
    pub form: Formula,
}

/// A lemma without fatal findings.
#[derive(Drop)]
pub struct GuardedLemma<'a> {
    /// its name
    pub name: &'a str,
    /// whether it speaks of all traces, or of some
    pub kind: TraceKind,
    /// how it is proved, and whether it is taken for others
    pub attributes: Vec<Attribute<'a>>,
    /// whether it names what the adversary learns, and so is read over learning logs
    pub marked: bool,
    /// the guarded form of its formula
    pub form: Formula,
    /// the proof that stands below it
    pub proof: Option<WrittenProof<'a>>,
    /// where that stands, or is to stand
    pub span: Span,
}

/// A theory without fatal findings.
#[derive(Drop)]
pub struct Problem<'a> {
    /// its symbols and its equations, those of pairs first
    pub signature: Signature,
    /// its rules, with their variables numbered
    pub rules: Vec<Rule>,
    /// its public names, each once
    pub constants: Vec<Name>,
    /// its restrictions, with their guarded forms
    pub restrictions: Vec<GuardedRestriction<'a>>,
    /// its lemmas, with their guarded forms
    pub lemmas: Vec<GuardedLemma<'a>>,
    /// how it asks that their proofs are ranked, as a lemma's own attributes do
    pub ranking: Vec<Attribute<'a>>,
    /// the place behind its word `end`
    pub behind_end: usize,
}

/// What comes of reading a text.
#[derive(Drop)]
pub enum Read<'a> {
    /// It says no theory, and is refused at this place.
    Refused(usize),
    /// There are findings on its theory, and these are their lines.
    Reported(Vec<u8>),
    /// There are none.
    Posed(Problem<'a>),
}

/// Puts the item at the end, if it is a rule, as it is written, with its variables numbered.
fn push_rule(alloc: Global, rules: &mut Vec<Rule>, item: &Item) -> Result<(), AllocError>
    ensures { OnOk result (map rule_of rules.new.items ≡ map rule_of rules.old.items ++ map written.rule_of (rules_written (view.item item.now ∷ []))) }
{
    match item {
        Item::Rule(bound) => {
            let made = numbered(alloc, &bound.rule)?;
            rules.push(made)?;
            Ok(())
        }
        _ => Ok(()),
    }
}

/// The rules among the items.
fn rules_of(alloc: Global, items: &Vec<Item>) -> Result<Vec<Rule>, AllocError>
    ensures { IfOk result (λ rs. map rule_of rs.items ≡ map written.rule_of (rules_written (view.items items.now.items))) }
{
    let mut rules = Vec::new(alloc);
    for item in items {
        push_rule(alloc, &mut rules, item)?;
    }
    Ok(rules)
}

/// Puts the restriction at the end, if it has a guarded form.
fn push_guarded<'a>(
    restrictions: &mut Vec<GuardedRestriction<'a>>,
    name: &'a str,
    form: Option<Formula>,
) -> Result<(), AllocError>
    ensures { OnOk result (map required_of restrictions.new.items ≡ map required_of restrictions.old.items ++ required_by name.now (option_map formula_of form)) }
{
    match form {
        Some(form) => {
            restrictions.push(GuardedRestriction { name, form })?;
            Ok(())
        }
        None => Ok(()),
    }
}

/// Puts the item at the end with its guarded form, if it is a restriction.
#[tactic(auto, using(crate::proofs::Items::required_alone))]
fn push_restriction<'a>(
    alloc: Global,
    restrictions: &mut Vec<GuardedRestriction<'a>>,
    item: &Item<'a>,
) -> Result<(), AllocError>
    ensures { OnOk result (map required_of restrictions.new.items ≡ map required_of restrictions.old.items ++ all_required (restrictions_in (view.item item.now ∷ []))) }
{
    match item {
        Item::Restriction(restriction) => {
            let form = checked_form(alloc, &restriction.formula)?;
            push_guarded(restrictions, restriction.name, form)?;
            Ok(())
        }
        _ => Ok(()),
    }
}

/// The restrictions among the items with their guarded forms; one that has none is passed over, which doesn't happen where there are no findings.
fn restrictions_of<'a>(
    alloc: Global,
    items: &Vec<Item<'a>>,
) -> Result<Vec<GuardedRestriction<'a>>, AllocError>
    ensures { IfOk result (λ rs. map required_of rs.items ≡ all_required (restrictions_in (view.items items.now.items))) }
{
    let mut restrictions = Vec::new(alloc);
    for item in items {
        push_restriction(alloc, &mut restrictions, item)?;
    }
    Ok(restrictions)
}

/// Puts the item at the end, if it is a lemma.
fn push_lemma<'a>(lemmas: &mut Vec<WrittenLemma<'a>>, item: Item<'a>) -> Result<(), AllocError>
    ensures { OnOk result (lemmas.new.items ≡ lemmas.old.items ++ lemmas_read (item.entry ∷ [])) }
{
    match item {
        Item::Lemma(lemma) => {
            lemmas.push(lemma)?;
            Ok(())
        }
        _ => Ok(()),
    }
}

/// The lemmas among the items.
fn lemmas_of<'a>(alloc: Global, items: Vec<Item<'a>>) -> Result<Vec<WrittenLemma<'a>>, AllocError>
    ensures { IfOk result (λ ls. ls.items ≡ lemmas_read items.entry.items) }
{
    let mut lemmas = Vec::new(alloc);
    for item in items {
        push_lemma(&mut lemmas, item)?;
    }
    Ok(lemmas)
}

/// The lemma with this guarded form.
fn guarded_by<'a>(lemma: WrittenLemma<'a>, form: Formula) -> GuardedLemma<'a>
    ensures { asked_of result ≡ asked_with lemma.entry (formula_of form) }
{
    let marked = names_learning(&lemma.formula);
    GuardedLemma {
        name: lemma.name,
        kind: lemma.kind,
        attributes: lemma.attributes,
        marked,
        form,
        proof: lemma.proof,
        span: lemma.span,
    }
}

/// The lemma with this guarded form, if it has one.
fn with_form<'a>(lemma: WrittenLemma<'a>, form: Option<Formula>) -> Option<GuardedLemma<'a>>
    ensures { option_map asked_of result ≡ option_map (λ g. asked_with lemma.entry g) (option_map formula_of form) }
{
    match form {
        Some(form) => Some(guarded_by(lemma, form)),
        None => None,
    }
}

/// The lemma with its guarded form; none where it has none.
fn guarded_lemma<'a>(
    alloc: Global,
    lemma: WrittenLemma<'a>,
) -> Result<Option<GuardedLemma<'a>>, AllocError>
    ensures { IfOk result (λ o. option_map asked_of o ≡ option_map (λ g. asked_with lemma.entry g) (guard.checked_form (formula lemma.entry.formula))) }
{
    let form = checked_form(alloc, &lemma.formula)?;
    Ok(with_form(lemma, form))
}

/// The lemmas, and one more; none where there is none more.
fn and_one<'a>(
    mut lemmas: Vec<GuardedLemma<'a>>,
    last: Option<GuardedLemma<'a>>,
) -> Result<Option<Vec<GuardedLemma<'a>>>, AllocError>
    ensures { IfOk result (λ o. option_map (λ ls. map asked_of ls.items) o ≡ option_map (λ l. map asked_of lemmas.entry.items ++ asked_of l ∷ []) last.entry) }
{
    let Some(last) = last else {
        return Ok(None);
    };
    lemmas.push(last)?;
    Ok(Some(lemmas))
}

/// The lemmas, and one more with its guarded form; none where it has none.
fn with_lemma<'a>(
    alloc: Global,
    others: Option<Vec<GuardedLemma<'a>>>,
    lemma: WrittenLemma<'a>,
) -> Result<Option<Vec<GuardedLemma<'a>>>, AllocError>
    ensures { IfOk result (λ o. option_map (λ ls. map asked_of ls.items) o ≡ asked_then (option_map (λ ls. map asked_of ls.items) others.entry) lemma.entry) }
{
    let Some(others) = others else {
        return Ok(None);
    };
    let last = guarded_lemma(alloc, lemma)?;
    and_one(others, last)
}

/// The lemmas with their guarded forms; none where one has none.
fn guarded_lemmas<'a>(
    alloc: Global,
    lemmas: Vec<WrittenLemma<'a>>,
) -> Result<Option<Vec<GuardedLemma<'a>>>, AllocError>
    ensures { IfOk result (λ o. option_map (λ ls. map asked_of ls.items) o ≡ all_asked lemmas.entry.items) }
{
    let mut guarded = Some(Vec::new(alloc));
    for lemma in lemmas {
        guarded = with_lemma(alloc, guarded, lemma)?;
    }
    Ok(guarded)
}

/// The lemmas among the items, with their guarded forms; none where one has none.
fn lemmas_in<'a>(
    alloc: Global,
    items: Vec<Item<'a>>,
) -> Result<Option<Vec<GuardedLemma<'a>>>, AllocError>
    ensures { IfOk result (λ o. option_map (λ ls. map asked_of ls.items) o ≡ all_asked (lemmas_read items.entry.items)) }
{
    let lemmas = lemmas_of(alloc, items)?;
    guarded_lemmas(alloc, lemmas)
}

/// Puts the first of the words at the end, as a lemma's own attribute says it.
fn push_first<'a>(ranking: &mut Vec<Attribute<'a>>, words: &Vec<&'a str>) -> Result<(), AllocError>
    ensures { OnOk result (view.attributes ranking.new.items ≡ view.attributes ranking.old.items ++ first_ranking (map (λ w. w.now) words.now.items)) }
{
    match words.first() {
        Some(word) => {
            ranking.push(Attribute::RankedBy(*word))?;
            Ok(())
        }
        None => Ok(()),
    }
}

/// The same, if the item is a heuristic.
fn push_ranking<'a>(ranking: &mut Vec<Attribute<'a>>, item: &Item<'a>) -> Result<(), AllocError>
    ensures { OnOk result (view.attributes ranking.new.items ≡ view.attributes ranking.old.items ++ item_ranking (view.item item.now)) }
{
    match item {
        Item::Heuristic(words) => push_first(ranking, words),
        _ => Ok(()),
    }
}

/// How the items ask that the lemmas' proofs are ranked.
fn ranking_of<'a>(alloc: Global, items: &Vec<Item<'a>>) -> Result<Vec<Attribute<'a>>, AllocError>
    ensures { IfOk result (λ xs. view.attributes xs.items ≡ rankings_in (view.items items.now.items)) }
{
    let mut ranking = Vec::new(alloc);
    for item in items {
        push_ranking(&mut ranking, item)?;
    }
    Ok(ranking)
}

/// What a text poses, of its theory with what its names stand for; none where a lemma has no guarded form.
fn posed<'a>(
    alloc: Global,
    signature: Signature,
    theory: ReadTheory<'a>,
) -> Result<Option<Problem<'a>>, AllocError>
    ensures { IfOk result (λ o. MatchOption o (all_asked (lemmas_read theory.entry.items.items) ≡ None) (IsMadeOf (signature_of signature) theory.entry)) }
{
    let rules = rules_of(alloc, &theory.items)?;
    let constants = constants(alloc, &theory)?;
    let restrictions = restrictions_of(alloc, &theory.items)?;
    let ranking = ranking_of(alloc, &theory.items)?;
    let behind_end = theory.behind_end;
    let Some(lemmas) = lemmas_in(alloc, theory.items)? else {
        return Ok(None);
    };
    Ok(Some(Problem {
        signature,
        rules,
        constants,
        restrictions,
        lemmas,
        ranking,
        behind_end,
    }))
}

/// What a text without fatal findings poses.
fn posed_of<'a>(
    alloc: Global,
    text: &'a [u8],
    examined: SaidTheory<'a>,
) -> Result<Problem<'a>, AllocError>
    requires examined { IsExamined text.now examined }
    requires fine { length examined.fatal.items ≡ 0 }
    ensures { IfOk result (IsPosedBy text.now) }
{
    let signature = signature(alloc, examined.symbols, examined.equations)?;
    let Some(problem) = posed(alloc, signature, examined.theory)? else {
        unreachable!()
    };
    Ok(problem)
}

/// The report on what a text says, on which there are fatal findings.
fn reported(alloc: Global, examined: &SaidTheory) -> Result<Vec<u8>, AllocError>
    ensures { IfOk result (λ text. text.items ≡ text_of (lines_of examined.now.fatal.items ++ spec.lines_of (warnings_on (view.items examined.now.theory.items.items)))) }
{
    let warnings = warnings(alloc, &examined.theory)?;
    report(alloc, &examined.fatal, &warnings)
}

/// What comes of reading a text.
///
/// # Errors
///
/// `AllocError` where memory is wanting.
pub fn posed_by<'a>(alloc: Global, text: &'a [u8]) -> Result<Read<'a>, AllocError>
    ensures { IfOk result (IsRead text.now) }
{
    match examined(alloc, text)? {
        Err(place) => Ok(Read::Refused(place)),
        Ok(examined) => {
            if examined.fatal.is_empty() {
                let problem = posed_of(alloc, text, examined)?;
                Ok(Read::Posed(problem))
            } else {
                let lines = reported(alloc, &examined)?;
                Ok(Read::Reported(lines))
            }
        }
    }
}
