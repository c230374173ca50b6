// The trees that written proofs say.

ghost use Rattle.std.specs.Prelude.{◌≡◌, IfOk};
ghost use Rattle.sp_written.specs.Views as view;
ghost use Rattle.sp_check.specs.View.{node_of, skeleton_of};
ghost use Rattle.sp_skel.specs.Steps as spec;

use crate::steps::step_said;
use sp_check::{Node, Skeleton};
use sp_written::{WrittenProof, WrittenStep};
use std::alloc::{AllocError, Global};

/// What a step says, over cases of the same names.
fn node_said(alloc: Global, step: &WrittenStep) -> Result<Node, AllocError>
    ensures { IfOk result (λ n. node_of n ≡ spec.node_said (view.step_at step.now)) }
{
    let mut cases = Vec::with_capacity(alloc, step.cases.len())?;
    for name in &step.cases {
        cases.push(String::from_str(alloc, name)?)?;
    }
    let step = step_said(alloc, step.method)?;
    Ok(Node { step, cases })
}

/// The tree that a written proof says.
///
/// # Errors
///
/// There is no memory.
pub fn skeleton(alloc: Global, proof: &WrittenProof) -> Result<Skeleton, AllocError>
    ensures { IfOk result (λ k. skeleton_of k ≡ spec.skeleton (view.proof proof.now)) }
{
    let mut nodes = Vec::with_capacity(alloc, proof.steps.len())?;
    for step in &proof.steps {
        nodes.push(node_said(alloc, step)?)?;
    }
    Ok(Skeleton { nodes })
}
