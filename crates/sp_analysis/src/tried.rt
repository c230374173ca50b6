// What comes of a lemma: a proof is grown for it, or the one below it is checked, and tells the verdict.

ghost use Rattle.std.specs.Prelude.{◌≡◌, [], IfOk, OnOk, Some, map, option_map};
ghost use Rattle.sp_written.specs.Views as view;
ghost use Rattle.sp_step.specs.View as moves;
ghost use Rattle.sp_solved.specs.View.{root_of};
ghost use Rattle.sp_spec_system.specs.Move as system;
ghost use Rattle.sp_system.specs.SystemView.{system_of};
ghost use Rattle.sp_search.specs.Finished.{finished};
ghost use Rattle.sp_search.specs.Kept.{log_in};
ghost use Rattle.sp_search.specs.View.{kept_of, tree_of};
ghost use Rattle.sp_learn.specs.View.{log_of};
ghost use Rattle.sp_check.specs.Judging as judging;
ghost use Rattle.sp_check.specs.Skeleton as read;
ghost use Rattle.sp_check.specs.View.{skeleton_of, judgement_of};
ghost use Rattle.sp_spec_text.specs.Numerals.{counted};
ghost use Rattle.sp_analysis.specs.Sought as spec;
ghost use Rattle.sp_analysis.specs.Checking.{proof_read};
ghost use Rattle.sp_analysis.specs.View.{setting_in, taken_of, verdict_of};
ghost use Rattle.sp_pose.specs.Asked as ask;
ghost use Rattle.sp_analysis.specs.Printed as print;

use crate::beginning::beginning_of;
use crate::block::block_of;
use crate::replies::Command;
use crate::setting::Setting;
use crate::shown::graph_of;
use crate::taken::{Taken, push_taken};
use crate::verdict::Verdict;
use sp_check::{Judgement, Skeleton, Step, judge};
use sp_learn::log::Log;
use sp_pose::GuardedLemma;
use sp_search::{Tree, grown_tree, is_finished, steps};
use sp_skel::{skeleton, tree_text};
use sp_solved::{Root, Sought};
use sp_step::context::Context;
use sp_step::moves::Move;
use sp_system::system::System;
use sp_written::{Span, TraceKind, WrittenProof};
use std::alloc::{AllocError, Global};

/// What came of a lemma.
#[derive(Drop)]
pub struct Tried<'a> {
    /// its name
    pub name: &'a str,
    /// whether it speaks of all traces, or of some
    pub kind: TraceKind,
    /// whether it names what the adversary learns, and so is read over learning logs
    pub marked: bool,
    /// what its proof says of it
    pub verdict: Verdict,
    /// how many moves that proof has
    pub steps: u64,
    /// where the proof stands, or is to stand
    pub span: Span,
    /// the text of the proof that was grown; empty where one was checked
    pub proof: String,
    /// the block of the execution or the log that was found; empty where none was
    pub block: String,
    /// the graph of the log that was found; empty where none is asked for
    pub graph: String,
}

/// The system in which a proof begins.
fn root_system(alloc: Global, root: &Root) -> Result<System, AllocError>
    ensures { IfOk result (λ s. system_of s ≡ system.root_system (root_of root.now)) }
{
    let formulas = root.formulas(alloc)?;
    let system = System::of_formulas(alloc, formulas)?;
    Ok(system)
}

/// What a proof is made in: the search ends with a log over whose trace the restrictions are true, and what is sought.
fn context_of<'a>(setting: &'a Setting, root: Root<'a>) -> Context<'a>
    ensures { moves.context_of result ≡ spec.context_of (setting_in setting.now) (root_of root.entry) }
{
    Context {
        rules: &setting.book,
        sought: Sought {
            signature: &setting.signature,
            constants: &setting.constants,
            root,
        },
    }
}

/// What a finished proof says.
fn shown(kind: TraceKind) -> Verdict
    ensures { verdict_of result ≡ print.shown (view.kind kind) }
{
    match kind {
        TraceKind::AllTraces => Verdict::Verified,
        TraceKind::ExistsTrace => Verdict::Falsified,
    }
}

/// What a log says with which the search ends.
fn found_says(kind: TraceKind) -> Verdict
    ensures { verdict_of result ≡ print.found_says (view.kind kind) }
{
    match kind {
        TraceKind::AllTraces => Verdict::Falsified,
        TraceKind::ExistsTrace => Verdict::Verified,
    }
}

/// What a tree without a log says of its lemma.
fn by_leaves(kind: TraceKind, tree: &Tree) -> Verdict
    ensures { verdict_of result ≡ print.by_leaves (view.kind kind) (finished (tree_of tree.now)) }
{
    if is_finished(tree) {
        shown(kind)
    } else {
        Verdict::Incomplete
    }
}

/// What a tree that was grown says of its lemma.
fn by_tree(kind: TraceKind, tree: &Tree) -> Verdict
    ensures { verdict_of result ≡ print.by_tree (view.kind kind) (log_in (kept_of tree.now)) (finished (tree_of tree.now)) }
{
    match tree.found_log() {
        Some(_) => found_says(kind),
        None => by_leaves(kind, tree),
    }
}

/// What the judgement of a proof says of its lemma.
fn by_judgement(kind: TraceKind, judgement: &Judgement) -> Verdict
    ensures { verdict_of result ≡ print.by_judgement (view.kind kind) (judgement_of judgement.now) }
{
    match judgement {
        Judgement::Rejected(step, clause) => Verdict::Rejected(*step, *clause),
        Judgement::Found(_) => found_says(kind),
        Judgement::Finished => shown(kind),
        Judgement::Incomplete => Verdict::Incomplete,
    }
}

/// The tree of at most so many moves that is grown from the root.
fn grown_over(
    alloc: Global,
    setting: &Setting,
    budget: u64,
    root: &Root,
) -> Result<Tree, AllocError>
    ensures tree { IfOk result (λ t. tree_of t ≡ spec.proof_tree (setting_in setting.now) budget (root_of root.now)) }
    ensures log { IfOk result (λ t. log_in (kept_of t) ≡ spec.grown_log (setting_in setting.now) budget (root_of root.now)) }
{
    let context = context_of(setting, *root);
    let system = root_system(alloc, root)?;
    let tree = grown_tree(alloc, &context, system, budget)?;
    Ok(tree)
}

/// The tree of at most so many moves that is grown for the lemma.
fn grown(
    alloc: Global,
    setting: &Setting,
    budget: u64,
    taken: &Vec<Taken>,
    lemma: &GuardedLemma,
) -> Result<Tree, AllocError>
    ensures tree { IfOk result (λ t. tree_of t ≡ spec.proof_tree (setting_in setting.now) budget (print.root_for (setting_in setting.now) (map taken_of taken.now.items) (ask.asked_of lemma.now))) }
    ensures log { IfOk result (λ t. log_in (kept_of t) ≡ spec.grown_log (setting_in setting.now) budget (print.root_for (setting_in setting.now) (map taken_of taken.now.items) (ask.asked_of lemma.now))) }
{
    let beginning = beginning_of(alloc, setting, taken, lemma)?;
    let root = beginning.root(setting);
    let tree = grown_over(alloc, setting, budget, &root)?;
    Ok(tree)
}

/// What comes of the lemma where a proof of at most so many moves is grown for it by the command.
fn try_lemma<'a>(
    alloc: Global,
    command: Command,
    setting: &Setting,
    budget: u64,
    taken: &Vec<Taken>,
    lemma: &GuardedLemma<'a>,
) -> Result<Tried<'a>, AllocError>
    ensures printed { IfOk result (λ t. print.printed_of t ≡ print.print_by (Some budget) (print.graphing command) (setting_in setting.now) (map taken_of taken.now.items) (ask.asked_of lemma.now)) }
    ensures nameable { OnOk result (print.IsNameableBy (Some budget) (setting_in setting.now) (map taken_of taken.now.items) (ask.asked_of lemma.now)) }
{
    let tree = grown(alloc, setting, budget, taken, lemma)?;
    let verdict = by_tree(lemma.kind, &tree);
    let steps = steps(&tree);
    let proof = tree_text(alloc, &tree)?;
    let log = tree.found_log();
    let block = block_of(alloc, setting, lemma.marked, log)?;
    let graph = graph_of(alloc, command, setting, lemma.name, log)?;
    Ok(Tried {
        name: lemma.name,
        kind: lemma.kind,
        marked: lemma.marked,
        verdict,
        steps,
        span: lemma.span,
        proof,
        block,
        graph,
    })
}

/// The tree that the proof of a lemma says; a lemma without a proof has an open one.
fn read_proof(alloc: Global, proof: &Option<WrittenProof>) -> Result<Skeleton, AllocError>
    ensures { IfOk result (λ k. skeleton_of k ≡ proof_read (option_map view.proof proof.now)) }
{
    match proof {
        Some(proof) => skeleton(alloc, proof),
        None => Skeleton::leaf(alloc, Step::Known(Move::Unproved)),
    }
}

/// The log of a judgement, if it has one.
fn judged_log(judgement: &Judgement) -> Option<&Log>
    ensures { option_map (λ l. log_of l.now) result ≡ print.judged_log (judgement_of judgement.now) }
{
    match judgement {
        Judgement::Found(log) => Some(log),
        _ => None,
    }
}

/// The judgement of a tree that was read as a proof that begins from the root.
fn judged_over(
    alloc: Global,
    setting: &Setting,
    root: &Root,
    tree: &Skeleton,
) -> Result<Judgement, AllocError>
    ensures { IfOk result (λ j. judgement_of j ≡ judging.judgement (spec.context_of (setting_in setting.now) (root_of root.now)) (system.root_system (root_of root.now)) (skeleton_of tree.now)) }
{
    let context = context_of(setting, *root);
    let system = root_system(alloc, root)?;
    let judgement = judge(alloc, &context, system, tree)?;
    Ok(judgement)
}

/// The judgement of a tree that was read as a proof of the lemma.
fn judged_with(
    alloc: Global,
    setting: &Setting,
    taken: &Vec<Taken>,
    lemma: &GuardedLemma,
    tree: &Skeleton,
) -> Result<Judgement, AllocError>
    ensures { let root = print.root_for (setting_in setting.now) (map taken_of taken.now.items) (ask.asked_of lemma.now) in
        IfOk result (λ j. judgement_of j ≡ judging.judgement (spec.context_of (setting_in setting.now) root) (system.root_system root) (skeleton_of tree.now)) }
{
    let beginning = beginning_of(alloc, setting, taken, lemma)?;
    let root = beginning.root(setting);
    let judgement = judged_over(alloc, setting, &root, tree)?;
    Ok(judgement)
}

/// The judgement of the lemma's proof, and how many moves that has.
fn judged(
    alloc: Global,
    setting: &Setting,
    taken: &Vec<Taken>,
    lemma: &GuardedLemma,
) -> Result<(Judgement, u64), AllocError>
    ensures judgement { IfOk result (λ r. judgement_of r.0 ≡ print.judged_so (setting_in setting.now) (print.root_for (setting_in setting.now) (map taken_of taken.now.items) (ask.asked_of lemma.now)) (ask.asked_of lemma.now).proof) }
    ensures steps { IfOk result (λ r. r.1 ≡ counted (read.steps (proof_read (ask.asked_of lemma.now).proof))) }
{
    let tree = read_proof(alloc, &lemma.proof)?;
    let judgement = judged_with(alloc, setting, taken, lemma, &tree)?;
    let steps = sp_check::steps(&tree);
    Ok((judgement, steps))
}

/// What comes of the lemma where its proof is checked.
fn judge_lemma<'a>(
    alloc: Global,
    setting: &Setting,
    taken: &Vec<Taken>,
    lemma: &GuardedLemma<'a>,
) -> Result<Tried<'a>, AllocError>
    ensures printed { IfOk result (λ t. print.printed_of t ≡ print.to_print Command.Check (setting_in setting.now) (map taken_of taken.now.items) (ask.asked_of lemma.now)) }
    ensures nameable { OnOk result (print.IsNameable Command.Check (setting_in setting.now) (map taken_of taken.now.items) (ask.asked_of lemma.now)) }
{
    let (judgement, steps) = judged(alloc, setting, taken, lemma)?;
    let verdict = by_judgement(lemma.kind, &judgement);
    let block = block_of(alloc, setting, lemma.marked, judged_log(&judgement))?;
    let proof = String::new(alloc);
    let graph = String::new(alloc);
    Ok(Tried {
        name: lemma.name,
        kind: lemma.kind,
        marked: lemma.marked,
        verdict,
        steps,
        span: lemma.span,
        proof,
        block,
        graph,
    })
}

/// What comes of the lemma by the command, where these are taken.
fn outcome<'a>(
    alloc: Global,
    command: Command,
    setting: &Setting,
    taken: &Vec<Taken>,
    lemma: &GuardedLemma<'a>,
) -> Result<Tried<'a>, AllocError>
    ensures printed { IfOk result (λ t. print.printed_of t ≡ print.to_print command (setting_in setting.now) (map taken_of taken.now.items) (ask.asked_of lemma.now)) }
    ensures nameable { OnOk result (print.IsNameable command (setting_in setting.now) (map taken_of taken.now.items) (ask.asked_of lemma.now)) }
{
    match command {
        Command::Prove(budget) | Command::Graph(budget) | Command::Count(budget) => {
            try_lemma(alloc, command, setting, budget, taken, lemma)
        }
        Command::Check => judge_lemma(alloc, setting, taken, lemma),
    }
}

/// What comes of each lemma, in their order; each takes what those before it gave.
///
/// # Errors
///
/// `AllocError` where memory is wanting, or no number is left for a new variable.
pub fn all_tried<'a>(
    alloc: Global,
    command: Command,
    setting: &Setting,
    lemmas: &Vec<GuardedLemma<'a>>,
) -> Result<Vec<Tried<'a>>, AllocError>
    ensures printed { IfOk result (λ ts. map print.printed_of ts.items ≡ print.all_to_print command (setting_in setting.now) [] (map ask.asked_of lemmas.now.items)) }
    ensures nameable { OnOk result (print.AreNameable command (setting_in setting.now) [] (map ask.asked_of lemmas.now.items)) }
{
    let mut made = Vec::with_capacity(alloc, lemmas.len())?;
    let mut taken = Vec::new(alloc);
    for lemma in lemmas {
        let tried = outcome(alloc, command, setting, &taken, lemma)?;
        push_taken(&mut taken, lemma, tried.verdict)?;
        made.push(tried)?;
    }
    Ok(made)
}
