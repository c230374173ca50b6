// The variables of a rule are numbered.

ghost use Rattle.std.specs.Prelude.{◌≡◌, IfOk, map};
ghost use Rattle.sp_spec.specs.Formula.{Written};
ghost use Rattle.sp_spec.specs.Term as spec_term;
ghost use Rattle.sp_spec.specs.Written as written;
ghost use Rattle.sp_read_parts.specs.Views as view;
ghost use Rattle.sp_term.specs.View as memory;
ghost use Rattle.sp_fact.specs.View.{declared_of, rule_of};
ghost use Rattle.sp_declared.specs.View.{texts_of};
ghost use Rattle.sp_pose.specs.Numbering.{declared_in, numbered_by, sort_among, Numbers};

use sp_declared::names::{names, place_of};
use sp_fact::rule::{Declared, Rule};
use sp_finding::{occurrences, sort_in};
use sp_read_parts::{WrittenRule, WrittenVariable};
use sp_term::apply::Assigns;
use sp_term::term::{Name, Sort, Term, Variable};
use std::alloc::{AllocError, Global};

/// A rule's variables as they stand in it, and their names, each once.
#[derive(Drop)]
pub struct Numbering<'a> {
    /// the variables from left to right
    pub variables: Vec<WrittenVariable<'a>>,
    /// the names in first-seen order; a variable's number is its name's place
    pub names: Vec<&'a str>,
}

/// The numbering of the rule's variables.
fn number_variables<'a>(alloc: Global, rule: &WrittenRule<'a>) -> Result<Numbering<'a>, AllocError>
    ensures { IfOk result (λ n. Numbers (view.rule rule.now).facts n) }
{
    let variables = occurrences(alloc, rule)?;
    let names = names(alloc, &variables)?;
    Ok(Numbering { variables, names })
}

/// The sort of the variable of this name; that of messages, if there is none.
fn sort_among(name: &str, variables: &Vec<Declared>) -> Sort
    ensures { memory.sort_of result ≡ sort_among name.now (map declared_of variables.now.items) }
{
    for variable in variables {
        if variable.name.text.as_str() == name {
            return variable.sort;
        }
    }
    Sort::Msg
}

/// The names of a rule's variables, of which each is numbered by its place, and the variables with their sorts.
#[derive(Clone, Copy)]
struct ByPlace<'a, 'b> {
    names: &'b Vec<&'a str>,
    variables: &'b Vec<Declared>,
}

impl<'a, 'b> Assigns<WrittenVariable<'a>, Variable> for ByPlace<'a, 'b> {
    ghost From = { Written };

    ghost To = { spec_term.Variable };

    ghost from_of = { view.variable };

    ghost to_of = { memory.variable_of };

    ghost value_of = { λ n. numbered_by (texts_of n.names.now.items) (map declared_of n.variables.now.items) };

    fn value(&self, _alloc: Global, leaf: &WrittenVariable<'a>) -> Result<Term, AllocError> {
        let sort = sort_among(leaf.name, self.variables);
        let number = place_of(leaf.name, self.names) as u128;
        Ok(Term::Var(Variable { sort, number }))
    }
}

/// The names with their sorts in the rule.
fn declared(
    alloc: Global,
    rule: &WrittenRule,
    numbering: &Numbering,
) -> Result<Vec<Declared>, AllocError>
    requires { Numbers (view.rule rule.now).facts numbering.now }
    ensures { IfOk result (λ xs. map declared_of xs.items ≡ map (declared_in (view.rule rule.now).facts) (texts_of numbering.now.names.items)) }
{
    let mut made = Vec::with_capacity(alloc, numbering.names.len())?;
    for text in &numbering.names {
        let name = Name::new(alloc, text)?;
        let sort = sort_in(rule, &numbering.variables, text);
        made.push(Declared { name, sort })?;
    }
    Ok(made)
}

/// The rule with its variables numbered in first-seen order, each of its sort in the whole rule.
///
/// # Errors
///
/// `AllocError` where memory is wanting.
pub fn numbered(alloc: Global, rule: &WrittenRule) -> Result<Rule, AllocError>
    ensures { IfOk result (λ r. rule_of r ≡ written.rule_of (view.rule rule.now)) }
{
    let numbering = number_variables(alloc, rule)?;
    let name = Name::new(alloc, rule.name)?;
    let variables = declared(alloc, rule, &numbering)?;
    let numbers = ByPlace {
        names: &numbering.names,
        variables: &variables,
    };
    let facts = rule.facts.changed(alloc, &numbers)?;
    Ok(Rule {
        name,
        variables,
        facts,
    })
}
