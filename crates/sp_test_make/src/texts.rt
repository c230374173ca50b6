// Tokens, facts, rules and formulas that are read from texts.

use sp_fact::fact::{Action, Facts};
use sp_lex::{Sign, Token, tokens};
use sp_read_formula::formulas::formula;
use sp_read_parts::facts::fact_list;
use sp_read_parts::{ReadFormula, WrittenFact, WrittenRule};
use std::alloc::Global;
use std::test::Fail;

/// The tokens of a text.
pub fn tokens_in<'a>(alloc: Global, text: &'a [u8]) -> Result<Vec<Token<'a>>, Fail> {
    match tokens(alloc, text) {
        Ok(found) => Ok(found),
        Err(_) => Err("tokens".into()),
    }
}

/// The facts of a text up to its closing bracket.
pub fn facts_in<'a>(alloc: Global, text: &'a [u8]) -> Result<Vec<WrittenFact<'a>>, Fail> {
    let found = tokens_in(alloc, text)?;
    let (facts, _) = fact_list(alloc, Sign::CloseList, &found, 0)?.ok_or("facts")?;
    Ok(facts)
}

/// The rule of these premises, actions and conclusions, each up to a closing bracket.
pub fn rule_in<'a>(
    alloc: Global,
    name: &'a str,
    parts: [&'a [u8]; 3],
) -> Result<WrittenRule<'a>, Fail> {
    let [premises, actions, conclusions] = parts;
    let mut shown = Vec::new(alloc);
    for fact in facts_in(alloc, actions)? {
        shown.push(Action {
            symbol: fact.symbol,
            args: fact.args,
        })?;
    }
    Ok(WrittenRule {
        name,
        facts: Facts {
            premises: facts_in(alloc, premises)?,
            actions: shown,
            conclusions: facts_in(alloc, conclusions)?,
        },
    })
}

/// The formula of a text up to its closing quote.
pub fn formula_in<'a>(alloc: Global, text: &'a [u8]) -> Result<ReadFormula<'a>, Fail> {
    let found = tokens_in(alloc, text)?;
    let (read, _) = formula(alloc, Sign::Quote, 0, &found, 0)?.ok_or("formula")?;
    Ok(read)
}
