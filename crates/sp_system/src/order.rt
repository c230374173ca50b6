// Pairs that begin at a time.

ghost use Rattle.std.specs.Prelude.{◌≡◌};
ghost use Rattle.sp_spec_system.specs.Order as spec;

/// Whether one of these pairs begins at the time.
pub fn begins_at(time: u128, pairs: &[(u128, u128)]) -> bool
    ensures { result ≡ spec.begins_at time pairs.now }
{
    for pair in pairs {
        if pair.0 == time {
            return true;
        }
    }
    false
}
