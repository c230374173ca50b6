// What the methods of a proof say.

ghost use Rattle.std.specs.Prelude.{◌≡◌, ◌∷◌, IfOk, map, option_map, option_and_then};
ghost use Rattle.sp_written.specs.Views as view;
ghost use Rattle.sp_step.specs.View.{move_of};
ghost use Rattle.sp_step.specs.WordsView.{said_of};
ghost use Rattle.sp_spec_system.specs.Words.{of_goal};
ghost use Rattle.sp_check.specs.View.{step_of};
ghost use Rattle.sp_skel.specs.Steps as spec;

use crate::texts::{all_said, trimmed, words};
use sp_check::Step;
use sp_step::moves::Move;
use sp_step::words::{Said, of_goal, of_method};
use sp_written::Method;
use std::alloc::{AllocError, Global};

/// What a word says.
fn step_of_word(alloc: Global, word: &str) -> Result<Step, AllocError>
    ensures { IfOk result (λ x. step_of x ≡ spec.step_of_word word.now) }
{
    if let Some(chosen) = of_method(word) {
        return Ok(Step::Known(chosen));
    }
    let text = word.as_bytes().to_vec(alloc)?;
    Ok(Step::Unknown(text))
}

/// The move that is said by the word of a goal, and by what stands behind it, if that says something.
fn move_said(word: &[u8], said: Option<Vec<Said>>) -> Result<Option<Move>, AllocError>
    ensures { IfOk result (λ o. option_map move_of o ≡ option_and_then (of_goal word.now) (option_map (λ xs. map said_of xs.items) said)) }
{
    match said {
        Some(said) => of_goal(word, &said),
        None => Ok(None),
    }
}

/// What the words of a goal say, of which this is the first.
fn step_of_words(
    alloc: Global,
    text: &[u8],
    word: &[u8],
    others: &[&[u8]],
) -> Result<Step, AllocError>
    ensures { IfOk result (λ x. step_of x ≡ spec.step_of_words text.now (word.now ∷ map (λ w. w.now) others.now)) }
{
    let said = all_said(alloc, others)?;
    match move_said(word, said)? {
        Some(chosen) => Ok(Step::Known(chosen)),
        None => {
            let text = text.to_vec(alloc)?;
            Ok(Step::Unknown(text))
        }
    }
}

/// What stands between the brackets of `solve( )`.
fn step_of_text(alloc: Global, text: &[u8]) -> Result<Step, AllocError>
    ensures { IfOk result (λ x. step_of x ≡ spec.step_of_text text.now) }
{
    let inside = trimmed(text);
    let words = words(alloc, inside)?;
    match words.as_slice().split_first() {
        Some((word, others)) => step_of_words(alloc, inside, word, others),
        None => {
            let text = inside.to_vec(alloc)?;
            Ok(Step::Unknown(text))
        }
    }
}

/// What a method says.
pub fn step_said(alloc: Global, method: Method) -> Result<Step, AllocError>
    ensures { IfOk result (λ x. step_of x ≡ spec.step_said (view.method method.entry)) }
{
    match method {
        Method::Word(word) => step_of_word(alloc, word),
        Method::Goal(text) => step_of_text(alloc, text),
    }
}
