// The tests of a step of a log: that it is an instance, and names and uses nothing again.

ghost use Rattle.std.specs.Prelude.{◌≡◌, ◌++◌, IfOk, map, true};
ghost use Rattle.sp_spec.specs.Log.{fresh_uses, sources_of};
ghost use Rattle.sp_spec.specs.Same.{same_term};
ghost use Rattle.sp_fact.specs.GroundView.{ground_of, signature_of};
ghost use Rattle.sp_book.specs.View.{rule_forms_of};
ghost use Rattle.sp_log.specs.Checking as spec;
ghost use Rattle.sp_log.specs.View.{entry_of, source_of};

use crate::instance::is_instance_of_any;
use crate::log::{Entry, Source};
use crate::names::{fresh_names, use_names};
use crate::normal_form::are_in_normal_form;
use crate::sources::{linear_sources, name_sources};
use sp_book::form::RuleForms;
use sp_fact::ground_term::GroundTerm;
use sp_fact::signature::Signature;
use std::alloc::{AllocError, Global};

/// Whether the entry names no linear source again.
pub fn sources_are_new(
    alloc: Global,
    entry: &Entry,
    named: &mut Vec<Source>,
) -> Result<bool, AllocError>
    ensures tests { IfOk result (λ b. b ≡ spec.are_new spec.same_source (map source_of named.old.items) (sources_of (entry_of entry.now))) }
    ensures adds { IfOk result (λ b. b ≡ true → map source_of named.new.items ≡ map source_of named.old.items ++ sources_of (entry_of entry.now)) }
{
    let sources = linear_sources(alloc, &entry.facts.premises, &entry.sources)?;
    let are_new = name_sources(named, &sources)?;
    Ok(are_new)
}

/// Whether the entry uses no fresh name again.
pub fn names_are_new(
    alloc: Global,
    entry: &Entry,
    used: &mut Vec<GroundTerm>,
) -> Result<bool, AllocError>
    ensures tests { IfOk result (λ b. b ≡ spec.are_new same_term (map ground_of used.old.items) (fresh_uses (entry_of entry.now))) }
    ensures adds { IfOk result (λ b. b ≡ true → map ground_of used.new.items ≡ map ground_of used.old.items ++ fresh_uses (entry_of entry.now)) }
{
    let names = fresh_names(alloc, &entry.facts.premises)?;
    let are_new = use_names(used, &names)?;
    Ok(are_new)
}

/// Whether the entry is an instance, in normal form, of a rule of its name.
pub fn step_is_instance(
    alloc: Global,
    signature: &Signature,
    rules: &Vec<RuleForms>,
    entry: &Entry,
) -> Result<bool, AllocError>
    ensures { IfOk result (λ b. b ≡ spec.step_is_instance (signature_of signature.now) (map rule_forms_of rules.now.items) (entry_of entry.now)) }
{
    if !are_in_normal_form(alloc, &signature.equations, &entry.facts)? {
        return Ok(false);
    }
    is_instance_of_any(alloc, signature, rules, &entry.rule, &entry.facts)
}
