// Events: what happens at a time.

ghost use Rattle.std.specs.Prelude.{◌≡◌, IfOk, true};
ghost use Rattle.sp_system.specs.EventFacts.{has_its_facts};

use crate::adversary::{learning_facts, sending_facts};
use crate::staying::happening_stays;
use crate::time::changed_time;
use crate::way::Way;
use sp_fact::fact::{Action, Fact, Facts};
use sp_shared::copies::Copies;
use sp_shared::shared::Shared;
use sp_term::subst::{Subst, apply};
use sp_term::term::{Name, Term};
use std::alloc::{AllocError, Global};

/// What happens at an event.
#[derive(Drop)]
pub enum What {
    /// a step of the rule of this name
    Rule(Name),
    /// the adversary sends the message
    Send(Term),
    /// the adversary learns the message in this way
    Learn(Term, Way),
}

/// What happens at an event, and its facts.
#[derive(Drop)]
pub struct Happening {
    /// what
    pub what: What,
    /// its facts; what is sent or learnt has those that a trace shows of it
    pub facts: Facts,
    pub ghost has_its_facts: { has_its_facts what facts ≡ true },
}

/// What happens at a time; copies share what happens.
#[derive(Drop)]
pub struct Event {
    /// when
    pub time: u128,
    /// what
    pub happening: Shared<Happening>,
}

impl Happening {
    ghost use Rattle.sp_spec.specs.Change.{time_replaced};
    ghost use Rattle.sp_spec.specs.Substitution.{bound_to};
    ghost use Rattle.sp_spec_system.specs.System as system_spec;
    ghost use Rattle.sp_spec_system.specs.Equating.{happening_changed};
    ghost use Rattle.sp_term.specs.Bindings.{bindings};
    ghost use Rattle.sp_term.specs.View.{name_of, view};
    ghost use Rattle.sp_fact.specs.View.{facts_of};
    ghost use Rattle.sp_system.specs.WayView.{way_of};
    ghost use Rattle.sp_system.specs.SystemView.{shown};

    /// A step of the rule of this name, with these facts.
    pub fn step(rule: Name, facts: Facts) -> Happening
        ensures { shown result ≡ system_spec.rule_step (name_of rule) (facts_of facts) }
    {
        Happening {
            what: What::Rule(rule),
            facts,
        }
    }

    /// The adversary sends the message.
    ///
    /// # Errors
    ///
    /// `AllocError` where memory is wanting.
    pub fn send(alloc: Global, message: Term) -> Result<Happening, AllocError>
        ensures { IfOk result (λ h. shown h ≡ system_spec.sending (view message)) }
    {
        let facts = sending_facts(alloc, &message)?;
        Ok(Happening {
            what: What::Send(message),
            facts,
        })
    }

    /// The adversary learns the message in this way.
    ///
    /// # Errors
    ///
    /// `AllocError` where memory is wanting.
    pub fn learn(alloc: Global, message: Term, way: Way) -> Result<Happening, AllocError>
        ensures { IfOk result (λ h. shown h ≡ system_spec.learning (view message) (way_of way)) }
    {
        let facts = learning_facts(alloc, &message)?;
        Ok(Happening {
            what: What::Learn(message, way),
            facts,
        })
    }

    /// The same with each bound variable replaced, and with the time `small` in place of `large`.
    ///
    /// # Errors
    ///
    /// `AllocError` where memory is wanting.
    pub fn changed(
        &self,
        alloc: Global,
        subst: &Subst,
        small: u128,
        large: u128,
    ) -> Result<Happening, AllocError>
        ensures { IfOk result (λ h. shown h ≡ happening_changed (bound_to (bindings subst.now)) (time_replaced small large) (shown self.now)) }
    {
        match &self.what {
            What::Rule(rule) => {
                let rule = rule.clone()?;
                let facts = self.facts.changed(alloc, subst)?;
                Ok(Happening::step(rule, facts))
            }
            What::Send(message) => {
                let message = apply(alloc, subst, message)?;
                Happening::send(alloc, message)
            }
            What::Learn(message, way) => {
                let message = apply(alloc, subst, message)?;
                let way = way.changed(alloc, subst, small, large)?;
                Happening::learn(alloc, message, way)
            }
        }
    }

    // The same, shared with the one that was where that changes nothing.
    #[tactic(auto, using(crate::proofs::Kept::happening_kept))]
    fn changed_shared(
        alloc: Global,
        subst: &Subst,
        small: u128,
        large: u128,
        happening: &Shared<Happening>,
    ) -> Result<Shared<Happening>, AllocError>
        ensures { IfOk result (λ h. shown h ≡ happening_changed (bound_to (bindings subst.now)) (time_replaced small large) (shown happening.now)) }
    {
        if happening_stays(subst, small, large, happening) {
            let same = happening.share()?;
            return Ok(same);
        }
        let made = happening.changed(alloc, subst, small, large)?;
        let shared = Shared::new(alloc, made)?;
        Ok(shared)
    }
}

impl Event {
    ghost use Rattle.std.specs.Prelude.{map};
    ghost use Rattle.sp_spec.specs.Change.{time_replaced};
    ghost use Rattle.sp_spec.specs.Substitution.{bound_to};
    ghost use Rattle.sp_spec_system.specs.System.{happening_facts, happening_premises, happening_actions};
    ghost use Rattle.sp_spec_system.specs.System as system_spec;
    ghost use Rattle.sp_spec_system.specs.Equating.{event_changed};
    ghost use Rattle.sp_spec_system.specs.MakingOne.{happening_by};
    ghost use Rattle.sp_term.specs.Bindings.{bindings};
    ghost use Rattle.sp_term.specs.View.{name_of, view};
    ghost use Rattle.sp_fact.specs.View.{action_of, fact_of, facts_of};
    ghost use Rattle.sp_system.specs.WayView.{way_of};
    ghost use Rattle.sp_system.specs.SystemView.{event_of, event_with, shown};

    // This happens at the time.
    fn at(alloc: Global, time: u128, happening: Happening) -> Result<Event, AllocError>
        ensures { IfOk result (λ e. event_of e ≡ event_with time (shown happening)) }
    {
        let happening = Shared::new(alloc, happening)?;
        Ok(Event { time, happening })
    }

    /// A step of the rule of this name, with these facts.
    ///
    /// # Errors
    ///
    /// `AllocError` where memory is wanting.
    pub fn step(alloc: Global, time: u128, rule: Name, facts: Facts) -> Result<Event, AllocError>
        ensures { IfOk result (λ e. event_of e ≡ event_with time (system_spec.rule_step (name_of rule) (facts_of facts))) }
    {
        Event::at(alloc, time, Happening::step(rule, facts))
    }

    /// The adversary sends the message.
    ///
    /// # Errors
    ///
    /// `AllocError` where memory is wanting.
    pub fn send(alloc: Global, time: u128, message: Term) -> Result<Event, AllocError>
        ensures { IfOk result (λ e. event_of e ≡ event_with time (system_spec.sending (view message))) }
    {
        let happening = Happening::send(alloc, message)?;
        Event::at(alloc, time, happening)
    }

    /// The adversary learns the message in this way.
    ///
    /// # Errors
    ///
    /// `AllocError` where memory is wanting.
    pub fn learn(alloc: Global, time: u128, message: Term, way: Way) -> Result<Event, AllocError>
        ensures { IfOk result (λ e. event_of e ≡ event_with time (system_spec.learning (view message) (way_of way))) }
    {
        let happening = Happening::learn(alloc, message, way)?;
        Event::at(alloc, time, happening)
    }

    /// What happens.
    pub fn what(&self) -> &What
        ensures { result.now ≡ self.now.happening.what }
    {
        &self.happening.what
    }

    /// The premises of what happens.
    pub fn premises(&self) -> &Vec<Fact>
        ensures { map fact_of result.now.items ≡ happening_premises (event_of self.now).happening }
    {
        &self.happening.facts.premises
    }

    /// The actions of what happens.
    pub fn actions(&self) -> &Vec<Action>
        ensures { map action_of result.now.items ≡ happening_actions (event_of self.now).happening }
    {
        &self.happening.facts.actions
    }

    /// The conclusions of what happens.
    pub fn conclusions(&self) -> &Vec<Fact>
        ensures { map fact_of result.now.items ≡ (happening_facts (event_of self.now).happening).conclusions }
    {
        &self.happening.facts.conclusions
    }

    /// The facts of what happens.
    pub fn facts(&self) -> &Facts
        ensures { facts_of result.now ≡ happening_facts (event_of self.now).happening }
    {
        &self.happening.facts
    }

    /// The event with each bound variable replaced, and with the time `small` in place of `large`; where no term changes it shares
    /// what happens.
    ///
    /// # Errors
    ///
    /// `AllocError` where memory is wanting.
    pub fn changed(
        &self,
        alloc: Global,
        subst: &Subst,
        small: u128,
        large: u128,
    ) -> Result<Event, AllocError>
        ensures { IfOk result (λ e. event_of e ≡ event_changed (bound_to (bindings subst.now)) (time_replaced small large) (event_of self.now)) }
    {
        let time = changed_time(small, large, self.time);
        let happening = Happening::changed_shared(alloc, subst, small, large, &self.happening)?;
        Ok(Event { time, happening })
    }

    /// The event, at which what is learnt is learnt in this way.
    ///
    /// # Errors
    ///
    /// `AllocError` where memory is wanting.
    pub fn learnt_by(&self, alloc: Global, way: &Way) -> Result<Event, AllocError>
        ensures { IfOk result (λ e. event_of e ≡ event_with self.now.time (happening_by (way_of way.now) (event_of self.now).happening)) }
    {
        match self.what() {
            What::Learn(message, _) => {
                let message = message.clone()?;
                let way = way.clone()?;
                Event::learn(alloc, self.time, message, way)
            }
            What::Rule(_) | What::Send(_) => {
                let same = self.copied()?;
                Ok(same)
            }
        }
    }
}

/// A copy shares what happens.
impl Copies for Event {
    fn copied(&self) -> Result<Event, AllocError> {
        let happening = self.happening.share()?;
        Ok(Event {
            time: self.time,
            happening,
        })
    }
}
