// Up a way: each symbol above a place is applied, to what was had below it and the side messages beside it.

ghost use Rattle.std.specs.Prelude.{◌≡◌, ◌++◌, ◌∷◌, [], IfOk, drop, map, take};
ghost use Rattle.sp_spec.specs.Lists.{newest_first};
ghost use Rattle.sp_spec.specs.Execution as execution;
ghost use Rattle.sp_spec.specs.Term.{app};
ghost use Rattle.sp_law_log_execution.specs.Executed as spec;
ghost use Rattle.sp_term.specs.View.{name_of};
ghost use Rattle.sp_fact.specs.GroundView.{ground_of, grounds_of, step_of};
ghost use Rattle.sp_transfer.specs.Executing.{level_of};

use crate::level::Level;
use sp_fact::ground_term::GroundTerm;
use sp_fact::step::Step;
use sp_term::term::{Name, Term, copied, nesting_over};
use std::alloc::{AllocError, Global};
use std::rc::Rc;

// Copies of these messages behind those.
fn with_copies(
    mut made: Vec<GroundTerm>,
    messages: &[GroundTerm],
) -> Result<Vec<GroundTerm>, AllocError>
    ensures { IfOk result (λ ms. map ground_of ms.items ≡ map ground_of made.items ++ map ground_of messages.now) }
{
    for message in messages {
        made.push(message.clone()?)?;
    }
    Ok(made)
}

// Copies of the first messages, as many as that, behind those.
fn with_first(
    made: Vec<GroundTerm>,
    messages: &[GroundTerm],
    count: usize,
) -> Result<Vec<GroundTerm>, AllocError>
    ensures { IfOk result (λ ms. map ground_of ms.items ≡ map ground_of made.items ++ take count (map ground_of messages.now)) }
{
    let end = count.min(messages.len());
    with_copies(made, &messages[..end])
}

// The messages behind the first ones.
fn behind(messages: &[GroundTerm], count: usize) -> &[GroundTerm]
    ensures { result.now ≡ drop count messages.now }
{
    let start = count.min(messages.len());
    &messages[start..]
}

// The arguments at the level, with the message at the place that is entered among them.
fn arguments(
    alloc: Global,
    level: &Level,
    messages: &[GroundTerm],
    entered: &GroundTerm,
) -> Result<Vec<GroundTerm>, AllocError>
    ensures { IfOk result (λ ts. grounds_of ts.items ≡ spec.args_between (level_of level.now) (map ground_of messages.now) (ground_of entered.now)) }
{
    let mut made = with_first(Vec::new(alloc), messages, level.front)?;
    made.push(entered.clone()?)?;
    with_first(made, behind(messages, level.front), level.back)
}

// The symbol is applied to the messages.
fn apply(
    alloc: Global,
    symbol: &Name,
    messages: Vec<GroundTerm>,
    steps: &mut Vec<Step>,
) -> Result<GroundTerm, AllocError>
    ensures gives { IfOk result (λ t. ground_of t ≡ app (name_of symbol.now) (grounds_of messages.items)) }
    ensures adds { IfOk result (λ t. map step_of steps.new.items
        ≡ map step_of steps.old.items ++ execution.apply_symbol (name_of symbol.now) (grounds_of messages.items) ∷ []) }
{
    let applied = copied(&messages)?;
    steps.push(Step::ApplySymbol(symbol.clone()?, applied))?;
    let nesting = nesting_over(&messages)?;
    let name = symbol.clone()?;
    let shared = Rc::new(alloc, messages)?;
    Ok(Term::App(name, shared, nesting))
}

/// Adds the steps from the way's end up, and gives the message at the root.
pub fn raise(
    alloc: Global,
    levels: &[Level],
    messages: &[GroundTerm],
    end: &GroundTerm,
    steps: &mut Vec<Step>,
) -> Result<GroundTerm, AllocError>
    ensures gives { IfOk result (λ t. ground_of t ≡ spec.raised (map level_of levels.now) (map ground_of messages.now) (ground_of end.now)) }
    ensures adds { IfOk result (λ t. map step_of steps.new.items ≡ map step_of steps.old.items
        ++ newest_first (spec.raising (map level_of levels.now) (map ground_of messages.now) (ground_of end.now))) }
{
    let Some((level, below)) = levels.split_first() else {
        return end.clone();
    };
    let sides = behind(messages, level.front + level.back);
    let entered = raise(alloc, below, sides, end, steps)?;
    let applied = arguments(alloc, level, messages, &entered)?;
    apply(alloc, &level.symbol, applied, steps)
}
