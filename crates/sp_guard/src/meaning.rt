//! What the names in a formula mean.

ghost use Rattle.std.specs.Prelude.{◌≡◌, ℕ, ◌+◌, ◌<◌, ◌-◌, ◌^◌, IfSome, Some, option_map, if◌then◌else◌};
ghost use Rattle.std.specs.Str.{bytes_eq};
ghost use Rattle.sp_read_parts.specs.Views as view;
ghost use Rattle.sp_law_guard.specs.GuardedForm as spec;
ghost use Rattle.sp_guard.specs.View.{meaning_of, place_of, innermost_first};

use sp_read_parts::{Mark, WrittenVariable};

/// What a name means: a binder, by its place among those of its kind, the innermost having place 0.
#[derive(Clone, Copy)]
pub enum Meaning {
    /// a message, with the mark of its binder
    Message(Mark, u64),
    /// a time
    Time(u64),
}

/// What the innermost binder's name means.
pub fn binder_meant(mark: Mark) -> Meaning
    ensures { meaning_of result ≡ spec.binder_meant (view.mark mark) }
{
    match mark {
        Mark::Time => Meaning::Time(0),
        _ => Meaning::Message(mark, 0),
    }
}

impl Meaning {
    /// The same binder, seen from inside one more binder with this mark.
    fn past_binder(self, mark: Mark) -> Meaning
        requires { place_of self < 2 ^ 64 - 1 }
        ensures value { meaning_of result ≡ spec.past_binder (view.mark mark) (meaning_of self) }
        ensures place { place_of result < place_of self + 2 }
    {
        match (self, mark) {
            (Meaning::Time(place), Mark::Time) => Meaning::Time(place + 1),
            (Meaning::Message(binder, place), Mark::Time) => Meaning::Message(binder, place),
            (Meaning::Message(binder, place), _) => Meaning::Message(binder, place + 1),
            (Meaning::Time(place), _) => Meaning::Time(place),
        }
    }
}

/// What the name means inside one more binder, where it meant `outside` before.
fn meant_inside(outside: Option<Meaning>, binder: &WrittenVariable, name: &str) -> Option<Meaning>
    requires { IfSome outside (λ m. place_of m < 2 ^ 64 - 1) }
    ensures value { option_map meaning_of result ≡ (if bytes_eq binder.now.name.now name.now then Some (spec.binder_meant (view.mark binder.now.mark)) else option_map (spec.past_binder (view.mark binder.now.mark)) (option_map meaning_of outside)) }
    ensures place { (k : ℕ) → IfSome outside (λ m. place_of m < k) → IfSome result (λ m. place_of m < k + 1) }
{
    if binder.name == name {
        return Some(binder_meant(binder.mark));
    }
    match outside {
        Some(meaning) => Some(meaning.past_binder(binder.mark)),
        None => None,
    }
}

/// What the name means inside all binders: the innermost binder of that name.
pub fn meant(binders: &Vec<WrittenVariable>, name: &str) -> Option<Meaning>
    ensures { option_map meaning_of result ≡ spec.meant (innermost_first binders.now.items) name.now }
{
    let mut found = None;
    for binder in binders {
        found = meant_inside(found, binder, name);
    }
    found
}
