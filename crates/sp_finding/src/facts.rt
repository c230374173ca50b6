// What may be wrong with a fact or an action of a rule.

ghost use Rattle.std.specs.Prelude.{◌≡◌};
ghost use Rattle.sp_spec.specs.Findings as findings;
ghost use Rattle.sp_read_parts.specs.Views as view;
ghost use Rattle.sp_read_parts.specs.Views.{action_of, fact_of, terms};

use sp_read_parts::{Mark, WrittenAction, WrittenFact, WrittenTerm};
use sp_term::term::Term;

/// The most arguments that a fact, an action or a symbol may have.
pub const MOST_ARGUMENTS: usize = 16;

/// Whether there are too many arguments.
#[tactic(auto, using(crate::proofs::Counted::counted))]
pub fn are_too_many(args: &Vec<WrittenTerm>) -> bool
    ensures { result ≡ findings.is_wide (terms args.now.items) }
{
    MOST_ARGUMENTS < args.len()
}

/// Whether it has one argument.
#[tactic(auto, using(crate::proofs::Counted::one))]
pub fn is_one(fact: &WrittenFact) -> bool
    ensures { result ≡ findings.is_one (fact_of fact.now).args }
{
    fact.args.len() == 1
}

/// Whether the fact's name is that of fresh values.
pub fn is_fr(fact: &WrittenFact) -> bool
    ensures { result ≡ findings.is_fr_named (fact_of fact.now) }
{
    fact.symbol.text.as_str() == "Fr"
}

// Whether rules and the built-in rules share facts of this name.
#[tactic(auto, unfolding(sp_spec::specs::Findings::is_shared))]
fn is_shared(name: &str) -> bool
    ensures { result ≡ findings.is_shared name.now }
{
    name == "Fr" || name == "In" || name == "Out"
}

// Whether it is such a fact, and persistent, or hasn't one argument.
fn is_misused(fact: &WrittenFact) -> bool
    ensures { result ≡ findings.is_misused (fact_of fact.now) }
{
    is_shared(fact.symbol.text.as_str()) && (fact.persistent || !is_one(fact))
}

#[tactic(auto, unfolding(sp_spec::specs::Findings::is_no_premise))]
fn names_no_premise(name: &str) -> bool
    ensures { result ≡ findings.is_no_premise name.now }
{
    name == "Out" || name == "K" || name == "KU" || name == "KD"
}

#[tactic(auto, unfolding(sp_spec::specs::Findings::is_no_action))]
fn names_no_action(name: &str) -> bool
    ensures { result ≡ findings.is_no_action name.now }
{
    name == "K" || name == "KU" || name == "KD"
}

#[tactic(auto, unfolding(sp_spec::specs::Findings::is_no_conclusion))]
fn names_no_conclusion(name: &str) -> bool
    ensures { result ≡ findings.is_no_conclusion name.now }
{
    name == "In" || name == "Fr" || name == "K" || name == "KU" || name == "KD"
}

/// Whether the fact is reserved where it stands as a premise.
pub fn is_wrong_premise(fact: &WrittenFact) -> bool
    ensures { result ≡ findings.is_wrong_premise (fact_of fact.now) }
{
    names_no_premise(fact.symbol.text.as_str()) || is_misused(fact)
}

/// Whether the action is reserved.
pub fn is_wrong_action(action: &WrittenAction) -> bool
    ensures { result ≡ findings.is_no_action (action_of action.now).symbol }
{
    names_no_action(action.symbol.text.as_str())
}

/// Whether the fact is reserved where it stands as a conclusion.
pub fn is_wrong_conclusion(fact: &WrittenFact) -> bool
    ensures { result ≡ findings.is_wrong_conclusion (fact_of fact.now) }
{
    names_no_conclusion(fact.symbol.text.as_str()) || is_misused(fact)
}

/// Whether what is marked so may be fresh.
pub fn may_be_fresh(mark: Mark) -> bool
    ensures { result ≡ findings.may_be_fresh (view.mark mark) }
{
    match mark {
        Mark::Bare => true,
        Mark::Fresh => true,
        Mark::Message => true,
        Mark::Public => false,
        Mark::Time => false,
    }
}

/// Whether its one argument is a variable that may be fresh.
#[tactic(auto, using(crate::proofs::Counted::no_variable))]
pub fn is_fresh_variable(fact: &WrittenFact) -> bool
    ensures { result ≡ findings.is_fresh_variable (fact_of fact.now).args }
{
    if fact.args.len() != 1 {
        return false;
    }
    match &fact.args[0] {
        Term::Var(variable) => may_be_fresh(variable.mark),
        _ => false,
    }
}
