// The log that is looked for.

ghost use Rattle.std.specs.Prelude.{◌≡◌, IfOk, map, option_map};
ghost use Rattle.std.specs.List.{list_all};
ghost use Rattle.sp_term.specs.View.{name_of};
ghost use Rattle.sp_formula.specs.FormulaView.{formula_of};
ghost use Rattle.sp_fact.specs.GroundView.{signature_of, trace_of};
ghost use Rattle.sp_book.specs.View.{rule_forms_of};
ghost use Rattle.sp_system.specs.SystemView.{system_of};
ghost use Rattle.sp_law_decide.specs.Deciding.{decided, empty};
ghost use Rattle.sp_learn.specs.Checking as checking;
ghost use Rattle.sp_learn.specs.View.{entries_of, log_of};
ghost use Rattle.sp_solved.specs.Found as spec;
ghost use Rattle.sp_solved.specs.View.{root_of};
ghost use Rattle.sp_spec_system.specs.Move.{asked_formulas};

use crate::root::Root;
use crate::suggest::candidate;
use sp_book::form::RuleForms;
use sp_eval::truth::holds;
use sp_fact::ground_fact::Trace;
use sp_fact::signature::Signature;
use sp_formula::formula::Formula;
use sp_learn::check::{Checked, check_log};
use sp_learn::log::Log;
use sp_learn::trace::whole_trace;
use sp_system::system::System;
use sp_term::term::Name;
use std::alloc::{AllocError, Global};

/// What is looked for.
#[derive(Clone, Copy)]
pub struct Sought<'a> {
    /// the symbols and equations of the theory
    pub signature: &'a Signature,
    /// the public names that stand in the theory
    pub constants: &'a Vec<Name>,
    /// what the proof begins from: its restrictions and what is sought are to be true of the log's trace
    pub root: Root<'a>,
}

/// Whether the log is one of the rules of these forms.
fn is_log(
    alloc: Global,
    signature: &Signature,
    rules: &Vec<RuleForms>,
    log: &Log,
) -> Result<bool, AllocError>
    ensures { IfOk result (λ b. b ≡ checking.is_log (signature_of signature.now) (map rule_forms_of rules.now.items) (entries_of log.now)) }
{
    let checked = check_log(alloc, signature, rules, log)?;
    match checked {
        Checked::Fine => Ok(true),
        Checked::Fails(_, _) => Ok(false),
    }
}

/// Whether each of the formulas is true over the trace.
fn all_hold(alloc: Global, formulas: &Vec<Formula>, trace: &Trace) -> Result<bool, AllocError>
    ensures { IfOk result (λ b. b ≡ list_all (decided (trace_of trace.now) empty) (map formula_of formulas.now.items)) }
{
    for formula in formulas {
        if !holds(alloc, formula, trace)? {
            return Ok(false);
        }
    }
    Ok(true)
}

/// Whether the trace meets the restrictions and makes true what is sought.
fn is_answer(alloc: Global, root: &Root, trace: &Trace) -> Result<bool, AllocError>
    ensures { IfOk result (λ b. b ≡ list_all (decided (trace_of trace.now) empty) (asked_formulas (root_of root.now))) }
{
    if !all_hold(alloc, root.restrictions, trace)? {
        return Ok(false);
    }
    let answer = holds(alloc, root.sought, trace)?;
    Ok(answer)
}

/// Whether the log is one of the rules of these forms, and its trace meets the restrictions and makes true what is sought.
fn is_sought(
    alloc: Global,
    sought: &Sought,
    rules: &Vec<RuleForms>,
    log: &Log,
) -> Result<bool, AllocError>
    ensures { IfOk result (λ b. b ≡ spec.is_sought (signature_of sought.now.signature.now) (map rule_forms_of rules.now.items) (asked_formulas (root_of sought.now.root)) (entries_of log.now)) }
{
    if !is_log(alloc, sought.signature, rules, log)? {
        return Ok(false);
    }
    let trace = whole_trace(alloc, log)?;
    let answer = is_answer(alloc, &sought.root, &trace)?;
    Ok(answer)
}

/// The log that the system suggests, if it is what is looked for.
///
/// # Errors
///
/// `AllocError` where memory is wanting.
pub fn found(
    alloc: Global,
    sought: &Sought,
    rules: &Vec<RuleForms>,
    system: &System,
) -> Result<Option<Log>, AllocError>
    ensures { IfOk result (λ r. option_map log_of r ≡ spec.found (signature_of sought.now.signature.now) (map rule_forms_of rules.now.items) (map name_of sought.now.constants.now.items) (asked_formulas (root_of sought.now.root)) (system_of system.now)) }
{
    let Some(log) = candidate(alloc, sought.constants, system)? else {
        return Ok(None);
    };
    if is_sought(alloc, sought, rules, &log)? {
        Ok(Some(log))
    } else {
        Ok(None)
    }
}
