// Facts taken from a state.

ghost use Rattle.std.specs.Prelude.{◌≡◌, ◌<◌, IfSome, map, option_map, remove, vec_len};
ghost use Rattle.sp_law_run.specs.Taken.{removed, same_fact, taken, without};
ghost use Rattle.sp_fact.specs.GroundView.{ground_fact};
ghost use Rattle.sp_exec.specs.View.{left_over};

use sp_fact::ground_fact::GroundFact;
use sp_term::term::all_same;

/// Whether two facts are the same.
pub fn is_same(a: &GroundFact, b: &GroundFact) -> bool
    ensures { result ≡ same_fact (ground_fact a.now) (ground_fact b.now) }
{
    a.symbol == b.symbol && a.persistent == b.persistent && all_same(&a.args, &b.args)
}

/// The first place at which the fact stands.
fn place_of(facts: &Vec<GroundFact>, fact: &GroundFact) -> Option<usize>
    ensures within { IfSome result (λ i. i < vec_len facts.now) }
    ensures first { option_map (λ i. map ground_fact (remove facts.now.items i)) result ≡ removed (ground_fact fact.now) (map ground_fact facts.now.items) }
{
    for (place, other) in facts.iter().enumerate() {
        if is_same(fact, other) {
            return Some(place);
        }
    }
    None
}

/// Takes the fact, if it is there; a persistent one stays.
fn take(facts: &mut Vec<GroundFact>, fact: &GroundFact) -> bool
    ensures { left_over result (map ground_fact facts.new.items) ≡ without (ground_fact fact.now) (map ground_fact facts.old.items) }
{
    match place_of(facts, fact) {
        Some(place) => {
            if !fact.persistent {
                facts.remove(place);
            }
            true
        }
        None => false,
    }
}

/// Takes these facts, one after the other, if they are there.
pub fn take_all(facts: &mut Vec<GroundFact>, premises: &Vec<GroundFact>) -> bool
    ensures { left_over result (map ground_fact facts.new.items) ≡ taken (map ground_fact premises.now.items) (map ground_fact facts.old.items) }
{
    for premise in premises {
        if !take(facts, premise) {
            return false;
        }
    }
    true
}
