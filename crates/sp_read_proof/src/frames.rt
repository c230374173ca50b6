// Proofs that are read in part.

ghost use Rattle.std.specs.Prelude.{◌≡◌, ◌<◌, List, ℕ, [], ◌∷◌, ◌++◌, OnOk, MatchOption, length};
ghost use Rattle.sp_spec_text.specs.Written as text;
ghost use Rattle.sp_written.specs.Views as view;
ghost use Rattle.sp_read_proof.specs.View.{steps_of, frames_of};

use sp_written::{Method, WrittenStep};
use std::alloc::{AllocError, Global};

/// A line of a proof.
#[derive(Drop)]
pub enum Line<'a> {
    /// a leaf
    Leaf(Method<'a>),
    /// a method whose only case follows as it is
    Alone(Method<'a>),
    /// a method, and the name of its first case
    Cases(Method<'a>, &'a str),
}

/// What stands behind a case.
#[derive(Drop)]
pub enum Behind<'a> {
    /// the end of the cases
    Ended,
    /// the name of the next
    Another(&'a str),
}

/// A step of which a case is being read.
#[derive(Clone, Copy)]
pub enum Frame {
    /// its only case, which has no name
    Lone,
    /// one of its cases; it stands at this place among the steps
    Among(usize),
}

/// Where a proof has ended: the whole is read, and what follows it stands at this place; or the next case begins there.
#[derive(Clone, Copy)]
pub enum Closed {
    /// the whole
    Whole(usize),
    /// the next case
    Case(usize),
}

/// Puts a step without cases behind the others.
pub fn push_leaf<'a>(
    alloc: Global,
    steps: &mut Vec<WrittenStep<'a>>,
    method: Method<'a>,
) -> Result<(), AllocError>
    ensures { OnOk result (steps_of steps.new.items ≡ steps_of steps.old.items ++ (view.method method.entry, []) ∷ []) }
{
    steps.push(WrittenStep {
        method,
        cases: Vec::new(alloc),
    })?;
    Ok(())
}

/// Puts a step behind the others of which a case with this name follows.
pub fn push_step<'a>(
    alloc: Global,
    steps: &mut Vec<WrittenStep<'a>>,
    method: Method<'a>,
    name: &'a str,
) -> Result<(), AllocError>
    ensures { OnOk result (steps_of steps.new.items ≡ steps_of steps.old.items ++ (view.method method.entry, name.now ∷ []) ∷ []) }
{
    let mut cases = Vec::new(alloc);
    cases.push(name)?;
    steps.push(WrittenStep { method, cases })?;
    Ok(())
}

/// Names the next case of the step at this place.
pub fn name_case<'a>(
    steps: &mut Vec<WrittenStep<'a>>,
    place: usize,
    name: &'a str,
) -> Result<(), AllocError>
    requires { place < length steps.old.items }
    ensures { OnOk result ((outer inside : List (text.Method × List (List ℕ))) (x : text.Method) (names : List (List ℕ)) → place ≡ length outer → steps_of steps.old.items ≡ outer ++ (x, names) ∷ inside
        → steps_of steps.new.items ≡ outer ++ (x, names ++ name.now ∷ []) ∷ inside) }
{
    let step = &mut steps[place];
    step.cases.push(name)?;
    Ok(())
}

/// Puts a frame inside the others.
pub fn push_frame(frames: &mut Vec<Frame>, frame: Frame) -> Result<(), AllocError>
    ensures { OnOk result (frames_of frames.new.items ≡ frame ∷ frames_of frames.old.items) }
{
    frames.push(frame)?;
    Ok(())
}

/// Takes the innermost frame.
pub fn pop_frame(frames: &mut Vec<Frame>) -> Option<Frame>
    ensures { MatchOption result (frames_of frames.old.items ≡ []) (λ f. frames_of frames.old.items ≡ f ∷ frames_of frames.new.items) }
{
    frames.pop()
}
