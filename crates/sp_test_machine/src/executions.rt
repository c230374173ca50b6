// Executions of the adversary alone; those with rules are replayed from texts, in sp_test_top.

ghost use Rattle.std.specs.Prelude.{IfOk, map};
ghost use Rattle.sp_law_equal.specs.NormalForms.{HaveNormalForms};
ghost use Rattle.sp_law_equal.specs.Right.{AreRight};
ghost use Rattle.sp_fact.specs.View.{rule_of};
ghost use Rattle.sp_fact.specs.GroundView.{signature_of};

use sp_exec::replay::{Replayed, replay};
use sp_fact::rule::Rule;
use sp_fact::signature::Signature;
use sp_fact::step::Step;
use sp_law_equal::pairs_are_convergent;
use sp_read_steps::{StepLines, read_steps};
use sp_show::trace::trace_block;
use std::alloc::{AllocError, Global};
use std::test::Fail;

fn pairs(alloc: Global) -> Result<Signature, AllocError>
    ensures { IfOk result (λ s. HaveNormalForms (signature_of s).equations) }
{
    pairs_are_convergent();
    let signature = Signature::pairs(alloc)?;
    Ok(signature)
}

fn no_rules(alloc: Global) -> Vec<Rule>
    ensures { AreRight (map rule_of result.items) }
{
    Vec::new(alloc)
}

/// The adversary makes a pair, takes it apart again, and sends what it takes apart as it is written.
const PROJECTION: &[u8] = b"pub 'a'
pub 'b'
make <'a', 'b'>
make fst(<'a', 'b'>)
in fst(<'a', 'b'>)";

#[tactic(auto, using(sp_spec_printed::proofs::SymbolNames::of_pairs))]
fn projection(alloc: Global) -> Result<Vec<Step>, Fail> {
    let signature = Signature::pairs(alloc)?;
    let StepLines::Steps(steps) = read_steps(alloc, &signature.symbols, PROJECTION)? else {
        return Err("a line is no step's".into());
    };
    Ok(steps)
}

#[test]
fn traces_are_in_normal_form(rt: HostRuntime) -> Result<(), Fail> {
    let alloc = rt.alloc();
    let signature = pairs(alloc)?;
    let rules = no_rules(alloc);
    let steps = projection(alloc)?;
    let Replayed::Done(trace) = replay(alloc, &signature, &rules, &steps)? else {
        return Err("a step can't be done".into());
    };
    assert_eq!(rt;
        trace_block(alloc, &trace)?.as_str(),
        "trace:\nK('a')\nend of trace\n"
    );
    Ok(())
}
