// The truth of atoms, where what is bound has its values.

ghost use Rattle.std.specs.Prelude.{◌≡◌, ◌==◌, not, suc, length, IfOk, map};
ghost use Rattle.sp_spec.specs.Guarded as guarded;
ghost use Rattle.sp_spec.specs.Guarded.{term_in};
ghost use Rattle.sp_spec.specs.Same.{same_term};
ghost use Rattle.sp_law_decide.specs.Deciding as deciding;
ghost use Rattle.sp_law_decide.specs.Deciding.{assignment_of};
ghost use Rattle.sp_formula.specs.FormulaView.{atom_of, moment_of};
ghost use Rattle.sp_formula.specs.PlaceView.{placed_action, placed_term};
ghost use Rattle.sp_fact.specs.GroundView.{ground_action, trace_of};
ghost use Rattle.sp_eval.specs.View.{environment_of};

use crate::environment::Environment;
use crate::value::time_value;
use sp_fact::ground_fact::{GroundAction, Trace};
use sp_formula::formula::{Atom, Moment};
use sp_formula::place::{FormulaAction, FormulaTerm};
use sp_term::apply::apply;
use sp_term::term::{all_same, same};
use std::alloc::{AllocError, Global};

/// Whether the action is one of the entry.
fn is_among(action: &GroundAction, entry: &Vec<GroundAction>) -> bool
    ensures { result ≡ deciding.is_among (ground_action action.now) (map ground_action entry.now.items) }
{
    for shown in entry {
        if action.symbol == shown.symbol && all_same(&action.args, &shown.args) {
            return true;
        }
    }
    false
}

/// Whether the action stands in the trace at the position.
fn is_at(trace: &Trace, position: u64, action: &GroundAction) -> bool
    ensures { result ≡ deciding.is_at (trace_of trace.now) position (ground_action action.now) }
{
    let index = position as usize;
    if index >= trace.entries.len() {
        return false;
    }
    is_among(action, &trace.entries[index])
}

/// Whether the action stands in the trace at its time.
fn happens(
    alloc: Global,
    trace: &Trace,
    env: &Environment,
    action: &FormulaAction,
    time: Moment,
) -> Result<bool, AllocError>
    ensures { IfOk result (λ b. b ≡ deciding.atom_true (trace_of trace.now) (assignment_of (environment_of env.now)) (guarded.acts (placed_action action.now) (moment_of time))) }
{
    let shown = action.changed(alloc, &env.messages)?;
    Ok(is_at(trace, time_value(time, &env.times), &shown))
}

/// Whether the position is that of the newest entry.
fn is_last(trace: &Trace, position: u64) -> bool
    ensures { result ≡ (suc position == length (trace_of trace.now)) }
{
    let count = trace.entries.len();
    count > 0 && position as usize == count - 1
}

/// Whether the terms have the same value.
fn equal(
    alloc: Global,
    env: &Environment,
    left: &FormulaTerm,
    right: &FormulaTerm,
) -> Result<bool, AllocError>
    ensures { IfOk result (λ b. b ≡ same_term (term_in (assignment_of (environment_of env.now)) (placed_term left.now)) (term_in (assignment_of (environment_of env.now)) (placed_term right.now))) }
{
    let first = apply(alloc, &env.messages, left)?;
    let second = apply(alloc, &env.messages, right)?;
    Ok(same(&first, &second))
}

/// Whether the atom is true.
pub(crate) fn atom_true(
    alloc: Global,
    trace: &Trace,
    env: &Environment,
    atom: &Atom,
) -> Result<bool, AllocError>
    ensures { IfOk result (λ b. b ≡ deciding.atom_true (trace_of trace.now) (assignment_of (environment_of env.now)) (atom_of atom.now)) }
{
    match atom {
        Atom::Acts(action, time) => happens(alloc, trace, env, action, *time),
        Atom::Same(left, right) => equal(alloc, env, left, right),
        Atom::SameTime(first, second) => {
            Ok(time_value(*first, &env.times) == time_value(*second, &env.times))
        }
        Atom::Before(first, second) => {
            Ok(time_value(*first, &env.times) < time_value(*second, &env.times))
        }
        Atom::Last(time) => Ok(is_last(trace, time_value(*time, &env.times))),
    }
}

/// Whether the atom is false.
pub(crate) fn atom_false(
    alloc: Global,
    trace: &Trace,
    env: &Environment,
    atom: &Atom,
) -> Result<bool, AllocError>
    ensures { IfOk result (λ b. b ≡ not (deciding.atom_true (trace_of trace.now) (assignment_of (environment_of env.now)) (atom_of atom.now))) }
{
    let holds = atom_true(alloc, trace, env, atom)?;
    Ok(!holds)
}

/// Whether each of the atoms is true.
pub(crate) fn atoms_true(
    alloc: Global,
    trace: &Trace,
    env: &Environment,
    atoms: &Vec<Atom>,
) -> Result<bool, AllocError>
    ensures { IfOk result (λ b. b ≡ deciding.atoms_true (trace_of trace.now) (assignment_of (environment_of env.now)) (map atom_of atoms.now.items)) }
{
    for atom in atoms {
        if !atom_true(alloc, trace, env, atom)? {
            return Ok(false);
        }
    }
    Ok(true)
}
