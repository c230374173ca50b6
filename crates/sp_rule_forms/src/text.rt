// The lines of a rule's forms, and the line above them.

ghost use Rattle.std.specs.Prelude.{◌≡◌, ◌++◌, if◌then◌else◌, [], IfOk, OnOk, codes, decimal, map, string_bytes};
ghost use Rattle.sp_spec.specs.Term as spec;
ghost use Rattle.sp_spec.specs.Term.{app, none};
ghost use Rattle.sp_term.specs.View.{name_of, never_of, sort_of, variable_of};
ghost use Rattle.sp_fact.specs.View.{action_of, fact_of, facts_of};
ghost use Rattle.sp_fact.specs.GroundView.{ground_of};
ghost use Rattle.sp_rule_forms.specs.Text.{facts_line, joined, mark_text, rule_head, shown_action, shown_fact, shown_variable};

use sp_fact::fact::{Action, Fact, Facts};
use sp_fact::ground_term::GroundTerm;
use sp_show::trace;
use sp_term::apply::{Assigns, apply_all};
use sp_term::term::{Name, Never, Sort, Term, Variable, nesting_over};
use std::alloc::{AllocError, Global};
use std::rc::Rc;

/// What stands before the variables of a sort.
fn mark_text(sort: Sort) -> &'static str
    ensures { result.now ≡ mark_text (sort_of sort) }
{
    match sort {
        Sort::Msg => "",
        Sort::Fresh => "~",
        Sort::Pub => "$",
    }
}

/// The name of the symbol that a variable is written as.
fn shown_name(alloc: Global, variable: &Variable) -> Result<Name, AllocError>
    ensures { IfOk result (λ n. name_of n ≡ mark_text (sort_of variable.now.sort) ++ (codes "v" ++ decimal variable.now.number)) }
{
    let mark = mark_text(variable.sort);
    let number = variable.number;
    let text = format!(in alloc; "{mark}v{number}")?;
    let name = Name::new(alloc, &text)?;
    Ok(name)
}

/// The symbol of this name, over no arguments.
fn constant(alloc: Global, name: Name) -> Result<GroundTerm, AllocError>
    ensures { IfOk result (λ t. ground_of t ≡ app (name_of name) none) }
{
    let none = Vec::new(alloc);
    let nesting = nesting_over(&none)?;
    let shared = Rc::new(alloc, none)?;
    Ok(Term::App(name, shared, nesting))
}

/// Variables, as they are written.
#[derive(Clone, Copy)]
struct Shown;

impl Assigns<Variable, Never> for Shown {
    ghost From = { spec.Variable };

    ghost To = { ⊥ };

    ghost from_of = { variable_of };

    ghost to_of = { never_of };

    ghost value_of = { λ _ x. shown_variable x };

    fn value(&self, alloc: Global, leaf: &Variable) -> Result<GroundTerm, AllocError> {
        let name = shown_name(alloc, leaf)?;
        constant(alloc, name)
    }
}

/// Puts the text of the action.
fn write_action(alloc: Global, out: &mut String, action: &Action) -> Result<(), AllocError>
    ensures { OnOk result (string_bytes out.new ≡ string_bytes out.old ++ shown_action (action_of action.now)) }
{
    let ground = action.changed(alloc, &Shown)?;
    trace::write_action(out, &ground)
}

/// Puts what stands before a fact.
fn write_persistence(out: &mut String, persistent: bool) -> Result<(), AllocError>
    ensures { OnOk result (string_bytes out.new ≡ string_bytes out.old ++ (if persistent then codes "!" else [])) }
{
    if persistent {
        out.push_str("!")
    } else {
        Ok(())
    }
}

/// Puts the text of the fact.
fn write_fact(alloc: Global, out: &mut String, fact: &Fact) -> Result<(), AllocError>
    ensures { OnOk result (string_bytes out.new ≡ string_bytes out.old ++ shown_fact (fact_of fact.now)) }
{
    let symbol = fact.symbol.clone()?;
    let args = apply_all(alloc, &Shown, &fact.args)?;
    write_persistence(out, fact.persistent)?;
    trace::write_action(out, &Action { symbol, args })
}

/// Puts what stands before an element of a row.
fn write_start(out: &mut String, first: bool) -> Result<(), AllocError>
    ensures { OnOk result (string_bytes out.new ≡ string_bytes out.old ++ (if first then codes " " else codes ", ")) }
{
    if first {
        out.push_str(" ")
    } else {
        out.push_str(", ")
    }
}

/// Puts the texts of the actions, with commas between them.
fn write_action_row(
    alloc: Global,
    out: &mut String,
    actions: &Vec<Action>,
) -> Result<(), AllocError>
    ensures { OnOk result (string_bytes out.new ≡ string_bytes out.old ++ joined (map shown_action (map action_of actions.now.items))) }
{
    let mut first = true;
    for action in actions {
        write_start(out, first)?;
        write_action(alloc, out, action)?;
        first = false;
    }
    out.push_str(" ")?;
    Ok(())
}

/// Puts the texts of the facts, with commas between them.
fn write_fact_row(alloc: Global, out: &mut String, facts: &Vec<Fact>) -> Result<(), AllocError>
    ensures { OnOk result (string_bytes out.new ≡ string_bytes out.old ++ joined (map shown_fact (map fact_of facts.now.items))) }
{
    let mut first = true;
    for fact in facts {
        write_start(out, first)?;
        write_fact(alloc, out, fact)?;
        first = false;
    }
    out.push_str(" ")?;
    Ok(())
}

/// Puts the line of these facts at the end, with each variable as the symbol that it is written as.
///
/// # Errors
///
/// `AllocError` where memory is wanting, or a term with its variables replaced would nest deeper than terms may.
pub fn write_facts(alloc: Global, out: &mut String, facts: &Facts) -> Result<(), AllocError>
    ensures { OnOk result (string_bytes out.new ≡ string_bytes out.old ++ facts_line (facts_of facts.now)) }
{
    out.push_str("  [")?;
    write_fact_row(alloc, out, &facts.premises)?;
    out.push_str("] --[")?;
    write_action_row(alloc, out, &facts.actions)?;
    out.push_str("]-> [")?;
    write_fact_row(alloc, out, &facts.conclusions)?;
    out.push_str("]\n")?;
    Ok(())
}

/// Puts the line of a rule's name and of how many forms it has at the end.
///
/// # Errors
///
/// `AllocError` where memory is wanting.
pub fn write_rule_head(out: &mut String, name: &Name, forms: usize) -> Result<(), AllocError>
    ensures { OnOk result (string_bytes out.new ≡ string_bytes out.old ++ rule_head (name_of name.now) forms) }
{
    let rule = name.text.as_str();
    write!(out, "rule {rule}: {forms} forms\n")
}
