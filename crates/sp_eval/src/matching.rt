// Actions of a guard against those of a trace.

ghost use Rattle.std.specs.Prelude.{◌≡◌, ◌++◌, [], ◌∷◌, IfOk, List, map, option_map, option_to_list};
ghost use Rattle.sp_spec.specs.Term as spec;
ghost use Rattle.sp_spec.specs.Guarded as guarded;
ghost use Rattle.sp_spec.specs.Same.{same_term};
ghost use Rattle.sp_spec.specs.Slots as slots;
ghost use Rattle.sp_law_decide.specs.Deciding as deciding;
ghost use Rattle.sp_law_decide.specs.Deciding.{nothing, matched_place, matched_time};
ghost use Rattle.sp_formula.specs.FormulaView.{moment_of, atom_of};
ghost use Rattle.sp_formula.specs.PlaceView.{place_of, placed_action};
ghost use Rattle.sp_term.specs.Bindings.{answer};
ghost use Rattle.sp_term.specs.View.{never_of};
ghost use Rattle.sp_fact.specs.GroundView.{ground_of, ground_action, trace_of};
ghost use Rattle.sp_eval.specs.View.{messages_of, times_of, environment_of, environments_of};

use crate::environment::{Environment, Messages, fill_time};
use sp_fact::ground_fact::{GroundAction, Trace};
use sp_fact::ground_term::GroundTerm;
use sp_formula::formula::{Atom, Moment};
use sp_formula::place::{FormulaAction, Place};
use sp_formula::slots::fill;
use sp_term::matching::{Binds, extend_all};
use sp_term::term::{Never, Term};
use std::alloc::{AllocError, Global};

/// Whether the term is the one that stands for what has no value, the empty public name.
fn is_nothing(term: &GroundTerm) -> bool
    ensures { result ≡ same_term nothing (ground_of term.now) }
{
    match term {
        Term::Constant(name) => name.text.is_empty(),
        _ => false,
    }
}

// Makes the message at a place the term, if it has no value, and tells whether it is the term.
impl Binds<Place, Never> for Messages {
    ghost From = { guarded.Place };

    ghost To = { ⊥ };

    ghost from_of = { place_of };

    ghost to_of = { never_of };

    ghost Bindings = { List (slots.Slot spec.Sort spec.Ground) };

    ghost bindings = { messages_of };

    ghost bound_by = { matched_place };

    fn bind(&mut self, leaf: &Place, term: &GroundTerm) -> Result<bool, AllocError> {
        let is_nothing = is_nothing(term);
        match leaf {
            Place::Bound(place) => fill(&mut self.slots, *place, term, is_nothing),
            Place::Free(_) => Ok(is_nothing),
        }
    }
}

/// Makes the time the position, if it has no value, and tells whether it is the position.
fn match_time(time: Moment, position: u64, times: &mut Vec<Option<u64>>) -> bool
    ensures { answer result (times_of times.new.items) ≡ matched_time (moment_of time) position (times_of times.old.items) }
{
    match time {
        Moment::Bound(place) => fill_time(times, place, position),
        Moment::Free(_) => 0 == position,
    }
}

/// The environment in which the action is the one that is shown at the position, if there is one.
fn by_action(
    alloc: Global,
    action: &FormulaAction,
    time: Moment,
    position: u64,
    shown: &GroundAction,
    env: &Environment,
) -> Result<Option<Environment>, AllocError>
    ensures { IfOk result (λ o. option_to_list (option_map environment_of o) ≡ deciding.by_action (placed_action action.now) (moment_of time) position (ground_action shown.now) (environment_of env.now)) }
{
    if action.symbol != shown.symbol {
        return Ok(None);
    }
    let mut made = env.clone()?;
    let found = extend_all(&action.args, &shown.args, &mut made.messages)?;
    if found && match_time(time, position, &mut made.times) {
        Ok(Some(made))
    } else {
        Ok(None)
    }
}

/// One more environment, if there is one.
pub(crate) fn add(found: &mut Vec<Environment>, one: Option<Environment>) -> Result<(), AllocError>
    ensures { IfOk result (λ done. environments_of found.new.items ≡ environments_of found.old.items ++ option_to_list (option_map environment_of one)) }
{
    if let Some(env) = one {
        found.push(env)?;
    }
    Ok(())
}

/// Adds the environments in which the action is one of the entry at the position.
fn by_entry(
    alloc: Global,
    action: &FormulaAction,
    time: Moment,
    position: u64,
    entry: &Vec<GroundAction>,
    env: &Environment,
    found: &mut Vec<Environment>,
) -> Result<(), AllocError>
    ensures { IfOk result (λ done. environments_of found.new.items ≡ environments_of found.old.items ++ deciding.by_entry (placed_action action.now) (moment_of time) position (map ground_action entry.now.items) (environment_of env.now)) }
{
    for shown in entry {
        let one = by_action(alloc, action, time, position, shown, env)?;
        add(found, one)?;
    }
    Ok(())
}

/// Adds the environments in which the action is one of the trace, at the time.
fn by_trace(
    alloc: Global,
    action: &FormulaAction,
    time: Moment,
    trace: &Trace,
    env: &Environment,
    found: &mut Vec<Environment>,
) -> Result<(), AllocError>
    ensures { IfOk result (λ done. environments_of found.new.items ≡ environments_of found.old.items ++ deciding.by_trace (placed_action action.now) (moment_of time) (trace_of trace.now) (environment_of env.now)) }
{
    for (position, entry) in trace.entries.iter().enumerate() {
        by_entry(alloc, action, time, position as u64, entry, env, found)?;
    }
    Ok(())
}

/// The environments that come of these where the action is one of the trace, at the time.
fn by_each(
    alloc: Global,
    action: &FormulaAction,
    time: Moment,
    trace: &Trace,
    envs: &Vec<Environment>,
) -> Result<Vec<Environment>, AllocError>
    ensures { IfOk result (λ es. environments_of es.items ≡ deciding.by_each (placed_action action.now) (moment_of time) (trace_of trace.now) (environments_of envs.now.items)) }
{
    let mut found = Vec::new(alloc);
    for env in envs {
        by_trace(alloc, action, time, trace, env, &mut found)?;
    }
    Ok(found)
}

/// The same where the atom is an action, and else these environments.
fn by_atom(
    alloc: Global,
    trace: &Trace,
    atom: &Atom,
    envs: Vec<Environment>,
) -> Result<Vec<Environment>, AllocError>
    ensures { IfOk result (λ es. environments_of es.items ≡ deciding.by_actions (trace_of trace.now) (atom_of atom.now ∷ []) (environments_of envs.items)) }
{
    match atom {
        Atom::Acts(action, time) => by_each(alloc, action, *time, trace, &envs),
        _ => Ok(envs),
    }
}

/// The environments that come of one where each action of the guard is one of the trace.
pub(crate) fn by_actions(
    alloc: Global,
    trace: &Trace,
    guard: &Vec<Atom>,
    env: Environment,
) -> Result<Vec<Environment>, AllocError>
    ensures { IfOk result (λ es. environments_of es.items ≡ deciding.by_actions (trace_of trace.now) (map atom_of guard.now.items) (environment_of env ∷ [])) }
{
    let mut envs = Vec::with_capacity(alloc, 1)?;
    envs.push(env)?;
    for atom in guard {
        envs = by_atom(alloc, trace, atom, envs)?;
    }
    Ok(envs)
}
