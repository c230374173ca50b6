ghost use Rattle.std.specs.Prelude.{◌≡◌, map, MatchOption, IfSome, IfOk, ◌≤◌, ◌<◌, length};
ghost use Rattle.sp_spec_text.specs.Shapes as shapes;
ghost use Rattle.sp_spec_text.specs.Lists.{NoReading};
ghost use Rattle.sp_spec_text.specs.Theories.{SpellsFacts, SpellsArrow};
ghost use Rattle.sp_read_rules.specs.Rules.{IsLet, IsTransition, IsRule};
ghost use Rattle.sp_read_rules.specs.Views as view;
ghost use Rattle.sp_read_rules.specs.Views.{seen_from};

use crate::heads::rule_head;
use sp_fact::fact::{Action, Facts};
use sp_lex::{Sign, Token};
use sp_read_atoms::bindings::bindings;
use sp_read_parts::cursor::{after, behind};
use sp_read_parts::facts::fact_list;
use sp_read_parts::{WrittenAction, WrittenBinding, WrittenFact, WrittenRule, WrittenVariable};
use sp_written::BoundRule;
use std::alloc::{AllocError, Global};

/// Facts in their brackets, and the place behind them.
#[tactic(auto, using(crate::proofs::RuleParts::fact_lists))]
fn facts_in_brackets<'a>(
    alloc: Global,
    tokens: &[Token<'a>],
    at: usize,
) -> Result<Option<(Vec<WrittenFact<'a>>, usize)>, AllocError>
    ensures value { IfOk result (λ o. MatchOption o (NoReading SpellsFacts (seen_from tokens.now at)) (λ x. SpellsFacts (seen_from tokens.now at) (view.facts_of x.0.items) (seen_from tokens.now x.1))) }
    ensures further { IfOk result (λ o. IfSome o (λ x. (at < x.1) × (x.1 ≤ length tokens.now))) }
{
    let Some(inside) = after(Sign::OpenList, tokens, at) else {
        return Ok(None);
    };
    let Some((found, rest)) = fact_list(alloc, Sign::CloseList, tokens, inside)? else {
        return Ok(None);
    };
    Ok(Some((found, rest)))
}

/// The arrow of a rule with its actions, and the place behind it.
#[tactic(auto, using(crate::proofs::RuleParts::arrows))]
fn arrow<'a>(
    alloc: Global,
    tokens: &[Token<'a>],
    at: usize,
) -> Result<Option<(Vec<WrittenFact<'a>>, usize)>, AllocError>
    ensures value { IfOk result (λ o. MatchOption o (NoReading SpellsArrow (seen_from tokens.now at)) (λ x. SpellsArrow (seen_from tokens.now at) (view.facts_of x.0.items) (seen_from tokens.now x.1))) }
    ensures further { IfOk result (λ o. IfSome o (λ x. (at < x.1) × (x.1 ≤ length tokens.now))) }
{
    if let Some(rest) = after(Sign::Arrow, tokens, at) {
        return Ok(Some((Vec::new(alloc), rest)));
    }
    let Some(inside) = after(Sign::OpenArrow, tokens, at) else {
        return Ok(None);
    };
    let Some((found, rest)) = fact_list(alloc, Sign::CloseArrow, tokens, inside)? else {
        return Ok(None);
    };
    Ok(Some((found, rest)))
}

/// What a trace shows where the fact stands in an arrow.
fn action_of<'a>(found: WrittenFact<'a>) -> WrittenAction<'a>
    ensures { view.action_of result ≡ shapes.action_of (view.fact_of found.entry) }
{
    Action {
        symbol: found.symbol,
        args: found.args,
    }
}

/// Their actions, in the same order.
fn actions_of<'a>(
    alloc: Global,
    facts: Vec<WrittenFact<'a>>,
) -> Result<Vec<WrittenAction<'a>>, AllocError>
    ensures { IfOk result (λ shown. map view.action_of shown.items ≡ map shapes.action_of (view.facts_of facts.entry.items)) }
{
    let mut shown = Vec::with_capacity(alloc, facts.len())?;
    for fact in facts {
        shown.push(action_of(fact))?;
    }
    Ok(shown)
}

/// The facts of a rule with its arrow, and the place behind them.
#[tactic(auto, using(crate::proofs::RuleParts::transitions))]
fn transition<'a>(
    alloc: Global,
    tokens: &[Token<'a>],
    at: usize,
) -> Result<Option<(Facts<WrittenVariable<'a>>, usize)>, AllocError>
    ensures value { IfOk result (λ o. MatchOption o (NoReading IsTransition (seen_from tokens.now at)) (λ x. IsTransition (seen_from tokens.now at) (view.rule_facts x.0) (seen_from tokens.now x.1))) }
    ensures further { IfOk result (λ o. IfSome o (λ x. (at < x.1) × (x.1 ≤ length tokens.now))) }
{
    let Some((premises, labels)) = facts_in_brackets(alloc, tokens, at)? else {
        return Ok(None);
    };
    let Some((labelled, last)) = arrow(alloc, tokens, labels)? else {
        return Ok(None);
    };
    let Some((conclusions, rest)) = facts_in_brackets(alloc, tokens, last)? else {
        return Ok(None);
    };
    let actions = actions_of(alloc, labelled)?;
    let facts = Facts {
        premises,
        actions,
        conclusions,
    };
    Ok(Some((facts, rest)))
}

/// What `let` binds, if it stands first, and the place behind `in`.
#[tactic(auto, using(crate::proofs::RuleParts::lets))]
fn let_part<'a>(
    alloc: Global,
    tokens: &[Token<'a>],
    at: usize,
) -> Result<Option<(Vec<WrittenBinding<'a>>, usize)>, AllocError>
    requires { at ≤ length tokens.now }
    ensures value { IfOk result (λ o. MatchOption o (NoReading IsLet (seen_from tokens.now at)) (λ x. IsLet (seen_from tokens.now at) (view.bindings x.0.items) (seen_from tokens.now x.1))) }
    ensures further { IfOk result (λ o. IfSome o (λ x. (at ≤ x.1) × (x.1 ≤ length tokens.now))) }
{
    let Some(inside) = behind("let", tokens, at) else {
        return Ok(Some((Vec::new(alloc), at)));
    };
    let Some((found, rest)) = bindings(alloc, tokens, inside)? else {
        return Ok(None);
    };
    Ok(Some((found, rest)))
}

/// A rule of this name behind its bindings.
fn rule_of<'a>(
    name: &'a str,
    bindings: Vec<WrittenBinding<'a>>,
    facts: Facts<WrittenVariable<'a>>,
) -> BoundRule<'a>
    ensures bindings { view.bindings result.bindings.items ≡ view.bindings bindings.entry.items }
    ensures rule { view.rule result.rule ≡ record { name = name.now; facts = view.rule_facts facts.entry } }
{
    BoundRule {
        bindings,
        rule: WrittenRule { name, facts },
    }
}

/// A rule behind its bindings, and the place behind both.
#[tactic(auto, using(crate::proofs::RuleParts::rule_items))]
pub fn rule<'a>(
    alloc: Global,
    tokens: &[Token<'a>],
    at: usize,
) -> Result<Option<(BoundRule<'a>, usize)>, AllocError>
    ensures value { IfOk result (λ o. MatchOption o (NoReading IsRule (seen_from tokens.now at)) (λ x. IsRule (seen_from tokens.now at) (view.bindings x.0.bindings.items, view.rule x.0.rule) (seen_from tokens.now x.1))) }
    ensures further { IfOk result (λ o. IfSome o (λ x. (at < x.1) × (x.1 ≤ length tokens.now))) }
{
    let Some((name, body)) = rule_head(tokens, at) else {
        return Ok(None);
    };
    let Some((bindings, inner)) = let_part(alloc, tokens, body)? else {
        return Ok(None);
    };
    let Some((facts, rest)) = transition(alloc, tokens, inner)? else {
        return Ok(None);
    };
    Ok(Some((rule_of(name, bindings, facts), rest)))
}
