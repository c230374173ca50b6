// Which of a text's lemmas are run: each, or the one alone whose name is given.

ghost use Rattle.std.specs.Prelude.{◌≡◌, ◌++◌, IfOk, OnOk, bytes_eq, map, option_map};
ghost use Rattle.std.specs.List.{list_any};
ghost use Rattle.sp_pose.specs.Asked.{asked_of};
ghost use Rattle.sp_analysis.specs.Chosen as spec;
ghost use Rattle.sp_analysis.specs.Printed as print;

use sp_pose::GuardedLemma;
use std::alloc::{AllocError, Global};

/// Whether the lemma of this name is run.
fn is_run(chosen: Option<&str>, name: &str) -> bool
    ensures { result ≡ spec.is_run (option_map (λ s. s.now) chosen.entry) name.now }
{
    match chosen {
        Some(chosen) => chosen == name,
        None => true,
    }
}

/// Whether a lemma has this name.
fn is_named_among(name: &str, lemmas: &Vec<GuardedLemma>) -> bool
    ensures { result ≡ list_any (bytes_eq name.now) (map (λ a. a.name) (map asked_of lemmas.now.items)) }
{
    for lemma in lemmas {
        if name == lemma.name {
            return true;
        }
    }
    false
}

/// Whether there is a lemma of the name that is given, if one is.
pub fn is_among(chosen: Option<&str>, lemmas: &Vec<GuardedLemma>) -> bool
    ensures { result ≡ spec.is_among (option_map (λ s. s.now) chosen.entry) (map (λ a. a.name) (map asked_of lemmas.now.items)) }
{
    match chosen {
        Some(name) => is_named_among(name, lemmas),
        None => true,
    }
}

/// Puts the lemma to those that are run, if it is.
fn push_run<'a>(
    run: &mut Vec<GuardedLemma<'a>>,
    chosen: Option<&str>,
    lemma: GuardedLemma<'a>,
) -> Result<(), AllocError>
    ensures { OnOk result (map asked_of run.new.items ≡ map asked_of run.old.items ++ print.run_if (option_map (λ s. s.now) chosen.entry) (asked_of lemma.entry)) }
{
    if is_run(chosen, lemma.name) {
        run.push(lemma)?;
    }
    Ok(())
}

/// Those of the lemmas that are run, in their order.
///
/// # Errors
///
/// `AllocError` where memory is wanting.
pub fn run_among<'a>(
    alloc: Global,
    chosen: Option<&str>,
    lemmas: Vec<GuardedLemma<'a>>,
) -> Result<Vec<GuardedLemma<'a>>, AllocError>
    ensures { IfOk result (λ ls. map asked_of ls.items ≡ print.asked_run (option_map (λ s. s.now) chosen.entry) (map asked_of lemmas.entry.items)) }
{
    let mut run = Vec::new(alloc);
    for lemma in lemmas {
        push_run(&mut run, chosen, lemma)?;
    }
    Ok(run)
}
