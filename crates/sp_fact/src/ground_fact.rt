// State facts, actions and traces, without variables.

use crate::fact::{Action, Fact, Facts};
use sp_term::term::Never;

/// A state fact, linear or persistent.
pub type GroundFact = Fact<Never>;

/// What a trace shows of a step.
pub type GroundAction = Action<Never>;

/// What a step takes, shows and adds.
pub type GroundFacts = Facts<Never>;

/// The actions of those steps that have one, the oldest first.
#[derive(Drop)]
pub struct Trace {
    /// the entries
    pub entries: Vec<Vec<GroundAction>>,
}
