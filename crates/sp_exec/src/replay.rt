// Steps replayed.

ghost use Rattle.std.specs.Prelude.{◌≡◌, IfOk, map};
ghost use Rattle.sp_spec.specs.Theory as spec;
ghost use Rattle.sp_law_equal.specs.NormalForms.{HaveNormalForms};
ghost use Rattle.sp_law_run.specs.NormalStep.{normal_step};
ghost use Rattle.sp_law_equal.specs.Right.{AreRight};
ghost use Rattle.sp_fact.specs.GroundView.{signature_of, step_of};
ghost use Rattle.sp_fact.specs.View.{rule_of};
ghost use Rattle.sp_exec.specs.Laws.{ReplaysAreOne};
ghost use Rattle.sp_exec.specs.Replay.{IsReplay};

use crate::cause::Cause;
use crate::machine::Machine;
use sp_fact::ground_fact::Trace;
use sp_fact::rule::Rule;
use sp_fact::signature::Signature;
use sp_fact::step::Step;
use std::alloc::{AllocError, Global};

/// What comes of the steps.
#[derive(Drop)]
pub enum Replayed {
    /// they are an execution, with this trace in normal form
    Done(Trace),
    /// the first step that can't be done, counted from 1, and why
    Refused(usize, Cause),
}

/// The trace of the steps, each of their terms in normal form, or the first of them that can't be done.
pub fn replay(
    alloc: Global,
    signature: &Signature,
    rules: &Vec<Rule>,
    steps: &Vec<Step>,
) -> Result<Replayed, AllocError>
    requires normal_forms { HaveNormalForms (signature_of signature.now).equations }
    requires right { AreRight (map rule_of rules.now.items) }
    ensures { (theory : spec.Theory) → theory.rules ≡ map rule_of rules.now.items → spec.signature_of theory ≡ signature_of signature.now
        → IfOk result (λ r. IsReplay theory (map (normal_step (signature_of signature.now).equations) (map step_of steps.now.items)) r) }
{
    let mut machine = Machine::new(alloc);
    for (place, step) in steps.iter().enumerate() {
        if let Some(cause) = machine.next_in_normal_form(alloc, signature, rules, step)? {
            return Ok(Replayed::Refused(place + 1, cause));
        }
    }
    Ok(Replayed::Done(Trace {
        entries: machine.entries,
    }))
}

/// Of the same steps there is one answer.
pub fn replays_are_one()
    ensures { ReplaysAreOne }
{}
