// Open leaves and steps of trees that were read.

ghost use Rattle.std.specs.Prelude.{◌≡◌, ◌^◌, ◌-◌, min};
ghost use Rattle.sp_check.specs.Skeleton as spec;
ghost use Rattle.sp_check.specs.View.{step_of, skeleton_of};

use crate::skeleton::{Skeleton, Step};
use sp_step::moves::Move;

/// Whether a step is an open leaf.
fn is_open(step: &Step) -> bool
    ensures { result ≡ spec.is_open (step_of step.now) }
{
    match step {
        Step::Known(Move::Unproved) => true,
        _ => false,
    }
}

/// Whether some node is an open leaf.
pub fn has_open(skeleton: &Skeleton) -> bool
    ensures { result ≡ spec.has_open (skeleton_of skeleton.now) }
{
    for node in &skeleton.nodes {
        if is_open(&node.step) {
            return true;
        }
    }
    false
}

fn steps_at(step: &Step) -> u64
    ensures { result ≡ spec.steps_at (step_of step.now) }
{
    match step {
        Step::Known(Move::Unproved) => 0,
        _ => 1,
    }
}

/// How many nodes aren't open leaves; `u64::MAX` where they are more.
pub fn steps(skeleton: &Skeleton) -> u64
    ensures { result ≡ min (spec.steps (skeleton_of skeleton.now)) (2 ^ 64 - 1) }
{
    let mut total: u64 = 0;
    for node in &skeleton.nodes {
        total = total.saturating_add(steps_at(&node.step));
    }
    total
}
