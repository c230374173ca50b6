// One time in place of another.

ghost use Rattle.std.specs.Prelude.{◌≡◌, IfOk, map, option_map};
ghost use Rattle.sp_spec_system.specs.Equating.{order_changed};
ghost use Rattle.sp_spec.specs.Change.{time_replaced};

use std::alloc::{AllocError, Global};

/// The time, with `small` in place of `large`.
pub fn changed_time(small: u128, large: u128, time: u128) -> u128
    ensures { result ≡ time_replaced small large time }
{
    if time == large { small } else { time }
}

/// The time that is said to be the last one, with `small` in place of `large`.
pub fn changed_last(small: u128, large: u128, last: Option<u128>) -> Option<u128>
    ensures { result ≡ option_map (time_replaced small large) last }
{
    match last {
        Some(time) => Some(changed_time(small, large, time)),
        None => None,
    }
}

/// The pairs of times, with `small` in place of `large`.
///
/// # Errors
///
/// `AllocError` where memory is wanting.
pub fn changed_order(
    alloc: Global,
    small: u128,
    large: u128,
    pairs: &Vec<(u128, u128)>,
) -> Result<Vec<(u128, u128)>, AllocError>
    ensures { IfOk result (λ ps. ps.items ≡ map (order_changed (time_replaced small large)) pairs.now.items) }
{
    let mut made = Vec::with_capacity(alloc, pairs.len())?;
    for pair in pairs {
        let first = changed_time(small, large, pair.0);
        let second = changed_time(small, large, pair.1);
        made.push((first, second))?;
    }
    Ok(made)
}
