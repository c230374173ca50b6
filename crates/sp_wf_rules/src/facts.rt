// The findings on the facts of a rule.

ghost use Rattle.std.specs.Prelude.{◌≡◌, OnOk, map};
ghost use Rattle.sp_read_parts.specs.Views as view;
ghost use Rattle.sp_read_parts.specs.Views.{action_of, facts_of};
ghost use Rattle.sp_wf_rules.specs.RuleFindings as spec;
ghost use Rattle.sp_finding.specs.Finding.{lines_after};
ghost use Rattle.sp_lines.specs.TextsView.{texts_of};

use sp_finding::{
    Finding, RuleFinding, are_too_many, is_fr, is_fresh_variable, is_one, is_wrong_action,
    is_wrong_conclusion, is_wrong_premise, tell_if,
};
use sp_lines::Texts;
use sp_read_parts::{WrittenAction, WrittenFact, WrittenRule};
use std::alloc::{AllocError, Global};

/// Tells of each of the facts that has too many arguments.
#[tactic(auto, using(sp_finding::proofs::Telling::told_on))]
fn tell_wide_facts(
    alloc: Global,
    lines: &mut Texts,
    facts: &Vec<WrittenFact>,
) -> Result<(), AllocError>
    ensures { OnOk result (texts_of lines.new ≡ lines_after (texts_of lines.old) (spec.wide_facts (facts_of facts.now.items))) }
{
    for fact in facts {
        let is_wrong = are_too_many(&fact.args);
        let name = fact.symbol.text.as_str();
        tell_if(alloc, lines, is_wrong, Finding::ArityAbove(name))?;
    }
    Ok(())
}

/// Tells of each of the actions that has too many arguments.
#[tactic(auto, using(sp_finding::proofs::Telling::told_on))]
fn tell_wide_actions(
    alloc: Global,
    lines: &mut Texts,
    actions: &Vec<WrittenAction>,
) -> Result<(), AllocError>
    ensures { OnOk result (texts_of lines.new ≡ lines_after (texts_of lines.old) (spec.wide_actions (map action_of actions.now.items))) }
{
    for action in actions {
        let is_wrong = are_too_many(&action.args);
        let name = action.symbol.text.as_str();
        tell_if(alloc, lines, is_wrong, Finding::ArityAbove(name))?;
    }
    Ok(())
}

/// Tells of each fact and each action of the rule that has too many arguments.
///
/// # Errors
///
/// `AllocError` where memory is wanting.
#[tactic(auto, using(sp_finding::proofs::Telling::told_three))]
pub fn tell_wide(alloc: Global, lines: &mut Texts, rule: &WrittenRule) -> Result<(), AllocError>
    ensures { OnOk result (texts_of lines.new ≡ lines_after (texts_of lines.old) (spec.wide_in_rule (view.rule rule.now))) }
{
    tell_wide_facts(alloc, lines, &rule.facts.premises)?;
    tell_wide_actions(alloc, lines, &rule.facts.actions)?;
    tell_wide_facts(alloc, lines, &rule.facts.conclusions)
}

/// Tells of each premise that is reserved.
#[tactic(auto, using(sp_finding::proofs::Telling::told_on))]
fn tell_premises(
    alloc: Global,
    lines: &mut Texts,
    rule: &str,
    premises: &Vec<WrittenFact>,
) -> Result<(), AllocError>
    ensures { OnOk result (texts_of lines.new ≡ lines_after (texts_of lines.old) (spec.wrong_premises rule.now (facts_of premises.now.items))) }
{
    for fact in premises {
        let is_wrong = is_wrong_premise(fact);
        let finding = RuleFinding::Reserved(fact.symbol.text.as_str());
        tell_if(alloc, lines, is_wrong, Finding::OnRule(rule, finding))?;
    }
    Ok(())
}

/// Tells of each action that is reserved.
#[tactic(auto, using(sp_finding::proofs::Telling::told_on))]
fn tell_actions(
    alloc: Global,
    lines: &mut Texts,
    rule: &str,
    actions: &Vec<WrittenAction>,
) -> Result<(), AllocError>
    ensures { OnOk result (texts_of lines.new ≡ lines_after (texts_of lines.old) (spec.wrong_actions rule.now (map action_of actions.now.items))) }
{
    for action in actions {
        let is_wrong = is_wrong_action(action);
        let finding = RuleFinding::Reserved(action.symbol.text.as_str());
        tell_if(alloc, lines, is_wrong, Finding::OnRule(rule, finding))?;
    }
    Ok(())
}

/// Tells of each conclusion that is reserved.
#[tactic(auto, using(sp_finding::proofs::Telling::told_on))]
fn tell_conclusions(
    alloc: Global,
    lines: &mut Texts,
    rule: &str,
    conclusions: &Vec<WrittenFact>,
) -> Result<(), AllocError>
    ensures { OnOk result (texts_of lines.new ≡ lines_after (texts_of lines.old) (spec.wrong_conclusions rule.now (facts_of conclusions.now.items))) }
{
    for fact in conclusions {
        let is_wrong = is_wrong_conclusion(fact);
        let finding = RuleFinding::Reserved(fact.symbol.text.as_str());
        tell_if(alloc, lines, is_wrong, Finding::OnRule(rule, finding))?;
    }
    Ok(())
}

/// Tells of each fact and each action of the rule that is reserved where it stands.
///
/// # Errors
///
/// `AllocError` where memory is wanting.
#[tactic(auto, using(sp_finding::proofs::Telling::told_three))]
pub fn tell_reserved(alloc: Global, lines: &mut Texts, rule: &WrittenRule) -> Result<(), AllocError>
    ensures { OnOk result (texts_of lines.new ≡ lines_after (texts_of lines.old) (spec.reserved_in_rule (view.rule rule.now))) }
{
    tell_premises(alloc, lines, rule.name, &rule.facts.premises)?;
    tell_actions(alloc, lines, rule.name, &rule.facts.actions)?;
    tell_conclusions(alloc, lines, rule.name, &rule.facts.conclusions)
}

/// Tells of each premise Fr of one argument that is no variable that may be fresh.
///
/// # Errors
///
/// `AllocError` where memory is wanting.
#[tactic(auto, using(sp_finding::proofs::Telling::told_on))]
pub fn tell_arguments(
    alloc: Global,
    lines: &mut Texts,
    rule: &WrittenRule,
) -> Result<(), AllocError>
    ensures { OnOk result (texts_of lines.new ≡ lines_after (texts_of lines.old) (spec.arguments_in_rule (view.rule rule.now))) }
{
    for fact in &rule.facts.premises {
        let is_wrong = is_fr(fact)
            && (!fact.persistent && (is_one(fact) && !is_fresh_variable(fact)));
        let finding = Finding::OnRule(rule.name, RuleFinding::FrArgument);
        tell_if(alloc, lines, is_wrong, finding)?;
    }
    Ok(())
}
