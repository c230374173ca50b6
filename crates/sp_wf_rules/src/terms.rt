// The findings on the terms of a rule: symbols that aren't there, and destructors in premises.

ghost use Rattle.std.specs.Prelude.{◌≡◌, OnOk, map};
ghost use Rattle.sp_fact.specs.GroundView.{equation_of};
ghost use Rattle.sp_read_parts.specs.Views as parts;
ghost use Rattle.sp_finding.specs.Finding.{lines_after};
ghost use Rattle.sp_finding.specs.KnownView.{symbols_of};
ghost use Rattle.sp_lines.specs.TextsView.{texts_of};
ghost use Rattle.sp_wf_rules.specs.RuleFindings as spec;

use sp_fact::signature::Equation;
use sp_finding::{
    Finding, KnownSymbols, RuleFinding, have_destructor, tell_if, tell_unknown_in_all,
};
use sp_lines::Texts;
use sp_read_parts::{WrittenAction, WrittenFact, WrittenRule};
use std::alloc::{AllocError, Global};

/// Tells of each symbol in the facts that isn't one of these.
fn tell_unknown_in_facts(
    alloc: Global,
    lines: &mut Texts,
    symbols: &KnownSymbols,
    facts: &Vec<WrittenFact>,
) -> Result<(), AllocError>
    ensures { OnOk result (texts_of lines.new ≡ lines_after (texts_of lines.old) (spec.unknown_in_facts (symbols_of symbols.now) (parts.facts_of facts.now.items))) }
{
    for fact in facts {
        tell_unknown_in_all(alloc, lines, symbols, &fact.args)?;
    }
    Ok(())
}

/// The same in each of the actions.
fn tell_unknown_in_actions(
    alloc: Global,
    lines: &mut Texts,
    symbols: &KnownSymbols,
    actions: &Vec<WrittenAction>,
) -> Result<(), AllocError>
    ensures { OnOk result (texts_of lines.new ≡ lines_after (texts_of lines.old) (spec.unknown_in_actions (symbols_of symbols.now) (map parts.action_of actions.now.items))) }
{
    for action in actions {
        tell_unknown_in_all(alloc, lines, symbols, &action.args)?;
    }
    Ok(())
}

/// The same in the rule.
///
/// # Errors
///
/// `AllocError` where memory is wanting.
#[tactic(auto, using(sp_finding::proofs::Telling::told_three))]
pub fn tell_unknown_in_rule(
    alloc: Global,
    lines: &mut Texts,
    symbols: &KnownSymbols,
    rule: &WrittenRule,
) -> Result<(), AllocError>
    ensures { OnOk result (texts_of lines.new ≡ lines_after (texts_of lines.old) (spec.unknown_in_rule (symbols_of symbols.now) (parts.rule rule.now))) }
{
    tell_unknown_in_facts(alloc, lines, symbols, &rule.facts.premises)?;
    tell_unknown_in_actions(alloc, lines, symbols, &rule.facts.actions)?;
    tell_unknown_in_facts(alloc, lines, symbols, &rule.facts.conclusions)
}

/// Whether a destructor stands in one of the facts.
fn facts_have_destructor(equations: &Vec<Equation>, facts: &Vec<WrittenFact>) -> bool
    ensures { result ≡ spec.facts_have_destructor (map equation_of equations.now.items) (parts.facts_of facts.now.items) }
{
    for fact in facts {
        if have_destructor(equations, &fact.args) {
            return true;
        }
    }
    false
}

/// Tells of the rule where a destructor stands in a premise.
///
/// # Errors
///
/// `AllocError` where memory is wanting.
pub fn tell_destructors(
    alloc: Global,
    lines: &mut Texts,
    equations: &Vec<Equation>,
    rule: &WrittenRule,
) -> Result<(), AllocError>
    ensures { OnOk result (texts_of lines.new ≡ lines_after (texts_of lines.old) (spec.destructors_in_rule (map equation_of equations.now.items) (parts.rule rule.now))) }
{
    let is_wrong = facts_have_destructor(equations, &rule.facts.premises);
    let finding = Finding::OnRule(rule.name, RuleFinding::Destructor);
    tell_if(alloc, lines, is_wrong, finding)
}
