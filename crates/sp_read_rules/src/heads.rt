// The heads of rules.

ghost use Rattle.std.specs.Prelude.{◌≡◌, MatchOption, IfSome, ◌≤◌, ◌<◌, length};
ghost use Rattle.sp_spec_text.specs.Lists.{NoReading};
ghost use Rattle.sp_spec_text.specs.Theories.{SpellsRuleHead};
ghost use Rattle.sp_read_rules.specs.Rules.{IsModulo, IsRuleName, IsBalanced, Closes, IsPassed, IsBracketed};
ghost use Rattle.sp_read_rules.specs.Views.{seen_from};

use sp_lex::{Sign, Token};
use sp_read_parts::cursor::{after, behind, split};
use sp_read_parts::terms::name;

/// The place behind a modulo in its brackets, if they stand first.
#[tactic(auto, using(crate::proofs::RuleHeads::modulos))]
fn modulo(tokens: &[Token], at: usize) -> Option<usize>
    ensures value { MatchOption result (NoReading IsModulo (seen_from tokens.now at)) (λ rest. IsModulo (seen_from tokens.now at) tt (seen_from tokens.now rest)) }
    ensures further { IfSome result (λ rest. (at < rest) × (rest ≤ length tokens.now)) }
{
    let inside = after(Sign::Open, tokens, at)?;
    let named = behind("modulo", tokens, inside)?;
    let (_, close) = name(tokens, named)?;
    let rest = after(Sign::Close, tokens, close)?;
    Some(rest)
}

/// The name of a rule, behind its modulo if it has one, and the place behind it.
#[tactic(auto, using(crate::proofs::RuleHeads::rule_names))]
fn rule_name<'a>(tokens: &[Token<'a>], at: usize) -> Option<(&'a str, usize)>
    ensures value { MatchOption result (NoReading IsRuleName (seen_from tokens.now at)) (λ x. IsRuleName (seen_from tokens.now at) x.0.now (seen_from tokens.now x.1)) }
    ensures further { IfSome result (λ x. (at < x.1) × (x.1 ≤ length tokens.now)) }
{
    if let Some(named) = modulo(tokens, at) {
        let (found, rest) = name(tokens, named)?;
        return Some((found, rest));
    }
    let (found, rest) = name(tokens, at)?;
    Some((found, rest))
}

/// Passes a token where so many brackets are open: how many are open behind it, and that place. None at the word `end`, and where no token is.
#[tactic(auto, using(crate::proofs::Balances::passings))]
fn past(tokens: &[Token], depth: usize, at: usize) -> Option<(usize, usize)>
    requires some { 0 < depth }
    requires few { depth ≤ at }
    ensures value { MatchOption result (NoReading (Closes depth) (seen_from tokens.now at)) (λ x. IsPassed depth (seen_from tokens.now at) x.0 (seen_from tokens.now x.1)) }
    ensures few { IfSome result (λ x. x.0 ≤ x.1) }
    ensures further { IfSome result (λ x. (at < x.1) × (x.1 ≤ length tokens.now)) }
{
    if let Some(inside) = after(Sign::OpenList, tokens, at) {
        return Some((depth + 1, inside));
    }
    if let Some(outside) = after(Sign::CloseList, tokens, at) {
        return Some((depth - 1, outside));
    }
    if let Some(_) = behind("end", tokens, at) {
        return None;
    }
    let (_, rest) = split(tokens, at)?;
    Some((depth, rest))
}

/// The place behind the bracket that closes the one before this place.
#[tactic(auto, using(crate::proofs::Balances::balances))]
fn balanced(tokens: &[Token], at: usize) -> Option<usize>
    requires some { 0 < at }
    requires within { at ≤ length tokens.now }
    ensures value { MatchOption result (NoReading IsBalanced (seen_from tokens.now at)) (λ rest. IsBalanced (seen_from tokens.now at) tt (seen_from tokens.now rest)) }
    ensures further { IfSome result (λ rest. (at < rest) × (rest ≤ length tokens.now)) }
{
    let mut depth = 1;
    let mut rest = at;
    while depth > 0 {
        let (left, ahead) = past(tokens, depth, rest)?;
        depth = left;
        rest = ahead;
    }
    Some(rest)
}

/// The place behind the attributes of a rule, which is this place where it has none.
#[tactic(auto, using(crate::proofs::Balances::brackets))]
fn bracketed(tokens: &[Token], at: usize) -> Option<usize>
    requires { at ≤ length tokens.now }
    ensures value { MatchOption result (NoReading IsBracketed (seen_from tokens.now at)) (λ rest. IsBracketed (seen_from tokens.now at) tt (seen_from tokens.now rest)) }
    ensures further { IfSome result (λ rest. (at ≤ rest) × (rest ≤ length tokens.now)) }
{
    match after(Sign::OpenList, tokens, at) {
        Some(inside) => balanced(tokens, inside),
        None => Some(at),
    }
}

/// The name of a rule, and the place behind the colon of its head.
#[tactic(auto, using(crate::proofs::RuleHeads::rule_heads))]
pub fn rule_head<'a>(tokens: &[Token<'a>], at: usize) -> Option<(&'a str, usize)>
    ensures value { MatchOption result (NoReading SpellsRuleHead (seen_from tokens.now at)) (λ x. SpellsRuleHead (seen_from tokens.now at) x.0.now (seen_from tokens.now x.1)) }
    ensures further { IfSome result (λ x. (at < x.1) × (x.1 ≤ length tokens.now)) }
{
    let named = behind("rule", tokens, at)?;
    let (found, attributes) = rule_name(tokens, named)?;
    let colon = bracketed(tokens, attributes)?;
    let rest = after(Sign::Colon, tokens, colon)?;
    Some((found, rest))
}
