// One elementary move, by its row.

ghost use Rattle.std.specs.Prelude.{◌≡◌, IfOk};
ghost use Rattle.sp_system.specs.SystemView.{system_of};
ghost use Rattle.sp_spec_proof.specs.Rows as spec;
ghost use Rattle.sp_step.specs.Kept.{keeps_terms};
ghost use Rattle.sp_step.specs.ReduceView.{row_of};
ghost use Rattle.sp_step.specs.View.{rules_of};
ghost use Rattle.sp_system.specs.Reduced.{Reduced};

use crate::context::Rules;
use sp_rows_formula::action_stands::action_stands;
use sp_rows_formula::disjunction::disjunction;
use sp_rows_formula::equate::equate;
use sp_rows_formula::in_order::in_order;
use sp_rows_formula::instantiate::instantiate;
use sp_rows_formula::last::sets_last;
use sp_rows_formula::open_existential::open_existential;
use sp_rows_formula::split::split;
use sp_rows_formula::unequal::unequal;
use sp_rows_graph::fresh_first::fresh_first;
use sp_rows_graph::fresh_once::fresh_once;
use sp_rows_graph::learn_once::learn_once;
use sp_rows_graph::linear_once::linear_once;
use sp_rows_graph::send_input::send_input;
use sp_rows_graph::send_learnt::send_learnt;
use sp_rows_graph::settle_learn::settle_learn;
use sp_system::system::System;
use std::alloc::{AllocError, Global};

/// The elementary moves, in the order in which they are tried.
#[derive(Clone, Copy, Debug, PartialEq, Eq)]
pub enum Row {
    /// the parts of a conjunction stand in its place
    Split,
    /// the variables of an existential formula are new
    OpenExistential,
    /// what is said to be equal is made one
    Equate,
    /// terms that are said to differ are an unequal pair
    Unequal,
    /// of two times the one is before the other
    Order,
    /// a time is said to be the last one, or comes before the one that is
    Last,
    /// an action that its event has is spent
    ActionStands,
    /// a disjunction with a part that is known is spent, and a false part is left out
    Disjunction,
    /// what a premise In takes is sent before
    SendInput,
    /// what is sent is learnt before
    SendLearnt,
    /// events that learn one message are one
    LearnOnce,
    /// premises with one linear source are one
    LinearOnce,
    /// events that use the same Fr are one
    FreshOnce,
    /// it is settled in which way a message is learnt, where this is known
    SettleLearn,
    /// an event that uses an Fr comes before those that have its term
    FreshFirst,
    /// a universal formula has a new instance
    Instantiate,
}

impl Row {
    /// Whether it puts no terms for variables, and adds to the events only terms that stand inside of theirs.
    pub fn keeps_terms(self) -> bool
        ensures { result ≡ keeps_terms (row_of self) }
    {
        match self {
            Row::Equate | Row::Last | Row::LearnOnce | Row::LinearOnce | Row::FreshOnce => false,
            _ => true,
        }
    }
}

/// All elementary moves, in the order in which they are tried.
pub const ROWS: [Row; 16] = [
    Row::Split,
    Row::OpenExistential,
    Row::Equate,
    Row::Unequal,
    Row::Order,
    Row::Last,
    Row::ActionStands,
    Row::Disjunction,
    Row::SendInput,
    Row::SendLearnt,
    Row::LearnOnce,
    Row::LinearOnce,
    Row::FreshOnce,
    Row::SettleLearn,
    Row::FreshFirst,
    Row::Instantiate,
];

/// Does one elementary move at its lowest position; false where it doesn't apply, and then the system stays.
///
/// # Errors
///
/// `AllocError` where memory is wanting, or no number is left for a new variable.
pub fn reduce(
    alloc: Global,
    rules: &Rules,
    system: &mut System,
    row: Row,
) -> Result<bool, AllocError>
    ensures { IfOk result (λ b. Reduced b (system_of system.old) (system_of system.new) (spec.by_row (rules_of rules.now) (row_of row) (system_of system.old))) }
{
    match row {
        Row::Split => split(alloc, system),
        Row::OpenExistential => open_existential(alloc, system),
        Row::Equate => equate(alloc, system),
        Row::Unequal => unequal(alloc, system),
        Row::Order => in_order(alloc, system),
        Row::Last => sets_last(alloc, system),
        Row::ActionStands => action_stands(alloc, system),
        Row::Disjunction => disjunction(alloc, system),
        Row::SendInput => send_input(alloc, system),
        Row::SendLearnt => send_learnt(alloc, system),
        Row::LearnOnce => learn_once(alloc, system),
        Row::LinearOnce => linear_once(alloc, system),
        Row::FreshOnce => fresh_once(alloc, system),
        Row::SettleLearn => settle_learn(alloc, &rules.signature.symbols, system),
        Row::FreshFirst => fresh_first(alloc, system),
        Row::Instantiate => instantiate(alloc, system),
    }
}
