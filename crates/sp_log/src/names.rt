// The fresh names that entries use.

ghost use Rattle.std.specs.Prelude.{◌≡◌, ◌++◌, IfOk, map, true};
ghost use Rattle.sp_spec.specs.Log as log;
ghost use Rattle.sp_spec.specs.Same.{same_term};
ghost use Rattle.sp_fact.specs.GroundView.{ground_fact, ground_of};
ghost use Rattle.sp_log.specs.Checking as spec;

use crate::sources::is_fresh;
use sp_fact::ground_fact::GroundFact;
use sp_fact::ground_term::GroundTerm;
use sp_term::term::same;
use std::alloc::{AllocError, Global};

/// The names whose Fr the premises use.
pub fn fresh_names(alloc: Global, premises: &Vec<GroundFact>) -> Result<Vec<GroundTerm>, AllocError>
    ensures { IfOk result (λ ts. map ground_of ts.items ≡ log.fresh_of (map ground_fact premises.now.items)) }
{
    let mut names = Vec::new(alloc);
    for premise in premises {
        if is_fresh(premise) {
            if let Some(name) = premise.args.first() {
                names.push(name.clone()?)?;
            }
        }
    }
    Ok(names)
}

/// Whether the name is one of these.
pub fn is_one_of(names: &Vec<GroundTerm>, name: &GroundTerm) -> bool
    ensures { result ≡ spec.is_one_of same_term (map ground_of names.now.items) (ground_of name.now) }
{
    for other in names {
        if same(other, name) {
            return true;
        }
    }
    false
}

/// Adds the names to those that were used, if none of them is used twice; what was added stays where the answer is no.
pub fn use_names(used: &mut Vec<GroundTerm>, names: &Vec<GroundTerm>) -> Result<bool, AllocError>
    ensures tests { IfOk result (λ b. b ≡ spec.are_new same_term (map ground_of used.old.items) (map ground_of names.now.items)) }
    ensures adds { IfOk result (λ b. b ≡ true → map ground_of used.new.items ≡ map ground_of used.old.items ++ map ground_of names.now.items) }
{
    for name in names {
        if is_one_of(used, name) {
            return Ok(false);
        }
        used.push(name.clone()?)?;
    }
    Ok(true)
}
