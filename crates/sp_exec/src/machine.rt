// The state that the steps reached, in normal form.

ghost use Rattle.std.specs.Prelude.{◌≡◌, ◌++◌, IfOk, OnOk, map};
ghost use Rattle.sp_law_equal.specs.Normal.{normal_facts};
ghost use Rattle.sp_law_run.specs.NormalStep.{normal_step};
ghost use Rattle.sp_fact.specs.GroundView.{equation_of, ground_action, ground_fact, ground_facts, ground_of, signature_of, step_of};
ghost use Rattle.sp_fact.specs.View.{rule_of};
ghost use Rattle.sp_exec.specs.Next as spec;
ghost use Rattle.sp_exec.specs.View.{instance_in, outcome_of, reached_by};

use crate::cause::Cause;
use crate::instance::{Instance, instance_of};
use crate::taking::take_all;
use sp_fact::ground_fact::{GroundAction, GroundFact};
use sp_fact::ground_term::GroundTerm;
use sp_fact::rule::Rule;
use sp_fact::signature::{Equation, Signature};
use sp_fact::step::Step;
use sp_norm::normal::normal_facts;
use sp_norm::step::normal_step;
use sp_term::term::same;
use std::alloc::{AllocError, Global};

/// What was reached: the facts in normal form, the fresh names made, and the entries of the trace, each the oldest first.
#[derive(Drop)]
pub struct Machine {
    /// the facts that are there, as often as they stand here
    pub facts: Vec<GroundFact>,
    /// the fresh names made so far
    pub made: Vec<GroundTerm>,
    /// the actions of those steps that have one
    pub entries: Vec<Vec<GroundAction>>,
}

/// Whether the name was made.
fn is_made(made: &Vec<GroundTerm>, term: &GroundTerm) -> bool
    ensures { result ≡ spec.is_made (ground_of term.now) (map ground_of made.now.items) }
{
    for earlier in made {
        if same(earlier, term) {
            return true;
        }
    }
    false
}

/// Whether the step makes a name that was made.
fn is_made_twice(made: &Vec<GroundTerm>, step: &Step) -> bool
    ensures { result ≡ spec.is_made_twice (step_of step.now) (map ground_of made.now.items) }
{
    match step {
        Step::MakeFresh(term) => is_made(made, term),
        _ => false,
    }
}

/// Adds the name that the step makes.
fn make(made: &mut Vec<GroundTerm>, step: &Step) -> Result<(), AllocError>
    ensures { OnOk result (map ground_of made.new.items ≡ spec.made_after (step_of step.now) (map ground_of made.old.items)) }
{
    if let Step::MakeFresh(term) = step {
        made.push(term.clone()?)?;
    }
    Ok(())
}

/// Adds an entry, if there is an action.
fn show(entries: &mut Vec<Vec<GroundAction>>, actions: Vec<GroundAction>) -> Result<(), AllocError>
    ensures { OnOk result (map (λ entry. map ground_action entry.items) entries.new.items
        ≡ spec.entries_after (map ground_action actions.items) (map (λ entry. map ground_action entry.items) entries.old.items)) }
{
    if !actions.is_empty() {
        entries.push(actions)?;
    }
    Ok(())
}

impl Machine {
    /// Before any step.
    pub fn new(alloc: Global) -> Machine
        ensures { reached_by result ≡ spec.nothing }
    {
        Machine {
            facts: Vec::new(alloc),
            made: Vec::new(alloc),
            entries: Vec::new(alloc),
        }
    }

    /// Adds what the step adds, when its premises were taken.
    fn add(
        &mut self,
        step: &Step,
        actions: Vec<GroundAction>,
        mut conclusions: Vec<GroundFact>,
    ) -> Result<(), AllocError>
        ensures { OnOk result (reached_by self.new ≡ record {
          facts = map ground_fact self.old.facts.items ++ map ground_fact conclusions.items;
          made = spec.made_after (step_of step.now) (map ground_of self.old.made.items);
          entries = spec.entries_after (map ground_action actions.items) (map (λ entry. map ground_action entry.items) self.old.entries.items);
        }) }
    {
        self.facts.append(&mut conclusions)?;
        make(&mut self.made, step)?;
        show(&mut self.entries, actions)?;
        Ok(())
    }

    /// Does the step that has this instance, or tells why it can't be done.
    fn follow(
        &mut self,
        alloc: Global,
        equations: &Vec<Equation>,
        step: &Step,
        instance: &Instance,
    ) -> Result<Option<Cause>, AllocError>
        ensures { IfOk result (λ r. outcome_of r self.new
            ≡ spec.by_facts (step_of step.now) (normal_facts (map equation_of equations.now.items) (instance_in instance.now).facts) instance.now.sorted (reached_by self.old)) }
    {
        let facts = normal_facts(alloc, equations, &instance.facts)?;
        if !take_all(&mut self.facts, &facts.premises) {
            return Ok(Some(Cause::PremiseAbsent));
        }
        if is_made_twice(&self.made, step) {
            return Ok(Some(Cause::FreshNameTwice));
        }
        if !instance.sorted {
            return Ok(Some(Cause::WrongSort));
        }
        self.add(step, facts.actions, facts.conclusions)?;
        Ok(None)
    }

    /// Does the step, or tells the least cause why it can't be done.
    pub fn next(
        &mut self,
        alloc: Global,
        signature: &Signature,
        rules: &Vec<Rule>,
        step: &Step,
    ) -> Result<Option<Cause>, AllocError>
        ensures { IfOk result (λ r. outcome_of r self.new
            ≡ spec.next (signature_of signature.now) (map rule_of rules.now.items) (step_of step.now) (reached_by self.old)) }
    {
        match instance_of(alloc, signature, rules, step)? {
            Err(cause) => Ok(Some(cause)),
            Ok(instance) => self.follow(alloc, &signature.equations, step, &instance),
        }
    }

    /// Does the step with each of its terms in normal form, or tells the least cause why it can't be done.
    pub fn next_in_normal_form(
        &mut self,
        alloc: Global,
        signature: &Signature,
        rules: &Vec<Rule>,
        step: &Step,
    ) -> Result<Option<Cause>, AllocError>
        ensures { IfOk result (λ r. outcome_of r self.new
            ≡ spec.next (signature_of signature.now) (map rule_of rules.now.items) (normal_step (map equation_of signature.now.equations.items) (step_of step.now)) (reached_by self.old)) }
    {
        let normal = normal_step(alloc, &signature.equations, step)?;
        let cause = self.next(alloc, signature, rules, &normal)?;
        Ok(cause)
    }
}
