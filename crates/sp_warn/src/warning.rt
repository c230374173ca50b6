// Warnings, and the lines that say them.

ghost use Rattle.std.specs.Prelude.{◌≡◌, [], IfOk, OnOk, string_bytes};
ghost use Rattle.sp_lines.specs.TextsView.{texts_of};
ghost use Rattle.sp_warn.specs.Told.{lines_after};
ghost use Rattle.sp_warn.specs.Warning as spec;
ghost use Rattle.sp_warn.specs.View.{warning_of};

use sp_lines::Texts;
use std::alloc::{AllocError, Global};

/// A warning on a theory: nothing that stands in the way of a proof, and most often a slip.
#[derive(Clone, Copy)]
pub enum Warning<'a> {
    /// in the rule of this name, a premise of this name and so many arguments, which nothing makes
    NoSource(&'a str, &'a str, usize),
    /// in the formula of this name, an action of this name and so many arguments, which no rule has
    InNoRule(&'a str, &'a str, usize),
    /// two public constants that differ in case only
    Alike(&'a str, &'a str),
    /// facts of this name, or actions, that differ in how many arguments they have or in whether they are persistent
    SeveralForms(&'a str),
    /// the lemma of this name is marked for induction and says that there is a trace
    NoInduction(&'a str),
}

/// The line of a warning.
#[tactic(auto, unfolding(crate::specs::Warning::line))]
fn line(alloc: Global, warning: Warning) -> Result<String, AllocError>
    ensures { IfOk result (λ l. string_bytes l ≡ spec.line (warning_of warning.entry)) }
{
    match warning {
        Warning::NoSource(rule, fact, arity) => {
            format!(in alloc; "warning: rule {rule}: premise {fact}/{arity} has no source")
        }
        Warning::InNoRule(formula, action, arity) => {
            format!(in alloc; "warning: formula {formula}: action {action}/{arity} in no rule")
        }
        Warning::Alike(first, second) => {
            format!(in alloc;
                "warning: public constants '{first}' and '{second}' differ in case only"
            )
        }
        Warning::SeveralForms(name) => {
            format!(in alloc; "warning: fact {name} has several arities or multiplicities")
        }
        Warning::NoInduction(lemma) => {
            format!(in alloc; "warning: lemma {lemma}: use_induction on exists-trace")
        }
    }
}

/// Puts the line of the warning at the end, if the condition holds and the line isn't there.
pub fn tell_if(
    alloc: Global,
    lines: &mut Texts,
    holds: bool,
    warning: Warning,
) -> Result<(), AllocError>
    ensures { OnOk result (texts_of lines.new ≡ lines_after (texts_of lines.old) (spec.told holds (warning_of warning.entry) [])) }
{
    if holds {
        let text = line(alloc, warning)?;
        lines.see(text)?;
    }
    Ok(())
}
