// The instance of a step.

ghost use Rattle.std.specs.Prelude.{◌≡◌, ◌∷◌, [], ◌++◌, IfOk, map, option_map};
ghost use Rattle.sp_spec.specs.Term.{app, more, none};
ghost use Rattle.sp_spec.specs.Rule as spec;
ghost use Rattle.sp_spec.specs.Rule.{in_of, knows, sends};
ghost use Rattle.sp_spec.specs.Execution as execution;
ghost use Rattle.sp_term.specs.View.{name_of};
ghost use Rattle.sp_fact.specs.GroundView.{given_of, ground_action, ground_fact, ground_of, grounds_of, signature_of, step_of, symbol_of};
ghost use Rattle.sp_fact.specs.View.{rule_of};
ghost use Rattle.sp_exec.specs.Next as next;
ghost use Rattle.sp_exec.specs.View.{answer_of};

use crate::cause::Cause;
use crate::given::{are_values, bound_by, is_value};
use sp_fact::ground_fact::{GroundAction, GroundFact, GroundFacts};
use sp_fact::ground_term::GroundTerm;
use sp_fact::rule::Rule;
use sp_fact::signature::{Signature, Symbol};
use sp_fact::step::{Given, Step};
use sp_norm::instance::facts_value;
use sp_norm::over::{are_over, has_public};
use sp_term::term::{Name, Sort, Term, copied, nesting_over};
use std::alloc::{AllocError, Global};
use std::rc::Rc;

/// The facts of a step, and whether its terms have their sorts.
#[derive(Drop)]
pub struct Instance {
    /// what is taken, shown and added
    pub facts: GroundFacts,
    /// whether each term has its sort, over the symbols
    pub sorted: bool,
}

/// The first rule of the name.
fn named<'a>(rules: &'a Vec<Rule>, name: &Name) -> Option<&'a Rule>
    ensures { option_map (λ r. rule_of r.now) result ≡ spec.rule_named (name_of name.now) (map rule_of rules.now.items) }
{
    for rule in rules {
        if rule.name == *name {
            return Some(rule);
        }
    }
    None
}

/// The instance of the rule with these values.
fn of_rule(
    alloc: Global,
    symbols: &Vec<Symbol>,
    rules: &Vec<Rule>,
    name: &Name,
    given: &Vec<Given>,
) -> Result<Result<Instance, Cause>, AllocError>
    ensures { IfOk result (λ r. answer_of r ≡ next.of_rule (map symbol_of symbols.now.items) (spec.rule_named (name_of name.now) (map rule_of rules.now.items)) (map given_of given.now.items)) }
{
    match named(rules, name) {
        None => Ok(Err(Cause::NoSuchRule)),
        Some(rule) => of_values(alloc, symbols, rule, given),
    }
}

fn of_values(
    alloc: Global,
    symbols: &Vec<Symbol>,
    rule: &Rule,
    given: &Vec<Given>,
) -> Result<Result<Instance, Cause>, AllocError>
    ensures { IfOk result (λ r. answer_of r ≡ next.of_rule (map symbol_of symbols.now.items) (Some (rule_of rule.now)) (map given_of given.now.items)) }
{
    match bound_by(alloc, &rule.variables, given)? {
        None => Ok(Err(Cause::NoInstance)),
        Some(values) => {
            let facts = facts_value(alloc, &values, &rule.facts)?;
            let sorted = are_values(symbols, &values);
            Ok(Ok(Instance { facts, sorted }))
        }
    }
}

/// The fact of this name that says something of one term.
fn about(
    alloc: Global,
    symbol: &str,
    persistent: bool,
    term: &GroundTerm,
) -> Result<GroundFact, AllocError>
    ensures { IfOk result (λ f. ground_fact f ≡ record { symbol = symbol.now; persistent = persistent; args = more (ground_of term.now) none }) }
{
    let symbol = Name::new(alloc, symbol)?;
    let mut args = Vec::new(alloc);
    args.push(term.clone()?)?;
    Ok(GroundFact {
        symbol,
        persistent,
        args,
    })
}

/// The facts of a built-in step.
fn of_facts(
    alloc: Global,
    premises: Vec<GroundFact>,
    actions: Vec<GroundAction>,
    conclusion: GroundFact,
    sorted: bool,
) -> Result<Result<Instance, Cause>, AllocError>
    ensures { IfOk result (λ r. answer_of r ≡ next.of_facts (map ground_fact premises.items) (map ground_action actions.items) (ground_fact conclusion ∷ []) sorted) }
{
    let mut conclusions = Vec::new(alloc);
    conclusions.push(conclusion)?;
    let facts = GroundFacts {
        premises,
        actions,
        conclusions,
    };
    Ok(Ok(Instance { facts, sorted }))
}

/// A step that takes nothing.
fn from_nothing(
    alloc: Global,
    conclusion: GroundFact,
    sorted: bool,
) -> Result<Result<Instance, Cause>, AllocError>
    ensures { IfOk result (λ r. answer_of r ≡ next.of_facts [] [] (ground_fact conclusion ∷ []) sorted) }
{
    of_facts(alloc, Vec::new(alloc), Vec::new(alloc), conclusion, sorted)
}

/// A step that takes one fact, after which the adversary knows the term.
fn learns(
    alloc: Global,
    premise: GroundFact,
    term: &GroundTerm,
    sorted: bool,
) -> Result<Result<Instance, Cause>, AllocError>
    ensures { IfOk result (λ r. answer_of r ≡ next.of_facts (ground_fact premise ∷ []) [] (knows (ground_of term.now) ∷ []) sorted) }
{
    let mut premises = Vec::new(alloc);
    premises.push(premise)?;
    let known = about(alloc, "K", true, term)?;
    of_facts(alloc, premises, Vec::new(alloc), known, sorted)
}

/// The adversary sends what it knows.
fn puts_in(
    alloc: Global,
    term: &GroundTerm,
    sorted: bool,
) -> Result<Result<Instance, Cause>, AllocError>
    ensures { IfOk result (λ r. answer_of r ≡ next.of_facts (knows (ground_of term.now) ∷ []) (sends (ground_of term.now) ∷ []) (in_of (ground_of term.now) ∷ []) sorted) }
{
    let mut premises = Vec::new(alloc);
    premises.push(about(alloc, "K", true, term)?)?;
    let shown = about(alloc, "K", true, term)?;
    let mut actions = Vec::new(alloc);
    actions.push(GroundAction {
        symbol: shown.symbol,
        args: shown.args,
    })?;
    let put = about(alloc, "In", false, term)?;
    of_facts(alloc, premises, actions, put, sorted)
}

/// The facts that the adversary knows these terms.
fn all_known(alloc: Global, terms: &Vec<GroundTerm>) -> Result<Vec<GroundFact>, AllocError>
    ensures { IfOk result (λ fs. map ground_fact fs.items ≡ execution.known_all (grounds_of terms.now.items)) }
{
    let mut made = Vec::with_capacity(alloc, terms.len())?;
    for term in terms {
        made.push(about(alloc, "K", true, term)?)?;
    }
    Ok(made)
}

/// That the adversary knows the symbol over these terms.
fn known_application(
    alloc: Global,
    symbol: &Name,
    terms: &Vec<GroundTerm>,
) -> Result<GroundFact, AllocError>
    ensures { IfOk result (λ f. ground_fact f ≡ knows (app (name_of symbol.now) (grounds_of terms.now.items))) }
{
    let name = symbol.clone()?;
    let args = copied(terms)?;
    let nesting = nesting_over(&args)?;
    let shared = Rc::new(alloc, args)?;
    let term = Term::App(name, shared, nesting);
    let known = about(alloc, "K", true, &term)?;
    Ok(known)
}

/// The adversary applies a symbol to what it knows.
#[tactic(auto, using(sp_fact::proofs::Lists::count_grounds))]
fn applies(
    alloc: Global,
    symbols: &Vec<Symbol>,
    symbol: &Name,
    terms: &Vec<GroundTerm>,
) -> Result<Result<Instance, Cause>, AllocError>
    ensures { IfOk result (λ r. answer_of r ≡ next.of_symbol (map symbol_of symbols.now.items) (name_of symbol.now) (grounds_of terms.now.items)) }
{
    if !has_public(symbols, symbol, terms.len()) {
        return Ok(Err(Cause::NoSuchRule));
    }
    let premises = all_known(alloc, terms)?;
    let known = known_application(alloc, symbol, terms)?;
    of_facts(
        alloc,
        premises,
        Vec::new(alloc),
        known,
        are_over(symbols, terms),
    )
}

/// The instance of the step, or why there is none.
pub fn instance_of(
    alloc: Global,
    signature: &Signature,
    rules: &Vec<Rule>,
    step: &Step,
) -> Result<Result<Instance, Cause>, AllocError>
    ensures { IfOk result (λ r. answer_of r ≡ next.instance_of (signature_of signature.now) (map rule_of rules.now.items) (step_of step.now)) }
{
    let symbols = &signature.symbols;
    match step {
        Step::MakeFresh(term) => {
            let fresh = about(alloc, "Fr", false, term)?;
            from_nothing(alloc, fresh, is_value(symbols, Sort::Fresh, term))
        }
        Step::UseRule(name, given) => of_rule(alloc, symbols, rules, name, given),
        Step::TakeOut(term) => {
            let sent = about(alloc, "Out", false, term)?;
            learns(alloc, sent, term, is_value(symbols, Sort::Msg, term))
        }
        Step::PutIn(term) => puts_in(alloc, term, is_value(symbols, Sort::Msg, term)),
        Step::KnowPublic(term) => {
            let known = about(alloc, "K", true, term)?;
            from_nothing(alloc, known, is_value(symbols, Sort::Pub, term))
        }
        Step::MakeOwn(term) => {
            let fresh = about(alloc, "Fr", false, term)?;
            learns(alloc, fresh, term, is_value(symbols, Sort::Fresh, term))
        }
        Step::ApplySymbol(symbol, terms) => applies(alloc, symbols, symbol, terms),
    }
}
