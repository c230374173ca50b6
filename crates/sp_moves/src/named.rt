// The names of the cases that a rule gives.

ghost use Rattle.std.specs.Prelude.{◌≡◌, ◌+◌, ◌∷◌, IfOk, ◌++◌, codes, decimal, map, string_bytes};
ghost use Rattle.sp_term.specs.View.{name_of};
ghost use Rattle.sp_system.specs.SystemView.{system_of};
ghost use Rattle.sp_spec_system.specs.Cases as spec;
ghost use Rattle.sp_moves.specs.View.{case_of};

use crate::moves::Case;
use sp_system::system::System;
use sp_term::term::Name;
use std::alloc::{AllocError, Global};

fn case_name(alloc: Global, name: &Name, number: u64) -> Result<String, AllocError>
    ensures { IfOk result (λ n. string_bytes n ≡ name_of name.now ++ (codes "_case_" ++ decimal number)) }
{
    let rule = name.text.as_str();
    let made = format!(in alloc; "{rule}_case_{number}")?;
    Ok(made)
}

// The only case of a rule has its name.
fn alone(alloc: Global, name: &Name, system: System) -> Result<Case, AllocError>
    ensures { IfOk result (λ c. case_of c ≡ record { name = name_of name.now; system = system_of system }) }
{
    let name = String::from_str(alloc, name.text.as_str())?;
    Ok(Case { name, system })
}

fn numbered(alloc: Global, name: &Name, systems: Vec<System>) -> Result<Vec<Case>, AllocError>
    ensures { IfOk result (λ cs. map case_of cs.items ≡ spec.numbered (name_of name.now) 1 (map system_of systems.items)) }
{
    let mut made = Vec::with_capacity(alloc, systems.len())?;
    let mut number: u64 = 1;
    for system in systems {
        let name = case_name(alloc, name, number)?;
        made.push(Case { name, system })?;
        let Some(next) = number.checked_add(1) else {
            return Err(AllocError);
        };
        number = next;
    }
    Ok(made)
}

/// The systems as cases of the rule of this name: the only one has the rule's name, several are numbered from 1.
///
/// # Errors
///
/// `AllocError` where memory is wanting.
pub fn named(alloc: Global, name: &Name, mut systems: Vec<System>) -> Result<Vec<Case>, AllocError>
    ensures { IfOk result (λ cs. map case_of cs.items ≡ spec.named (name_of name.now) (map system_of systems.items)) }
{
    if systems.len() != 1 {
        let made = numbered(alloc, name, systems)?;
        return Ok(made);
    }
    let mut made = Vec::new(alloc);
    if let Some(system) = systems.pop() {
        made.push(alone(alloc, name, system)?)?;
    }
    Ok(made)
}
