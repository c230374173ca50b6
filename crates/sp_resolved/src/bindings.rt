// What `let` binds in a rule, in the place of the names that are bound.

ghost use Rattle.std.specs.Prelude.{◌≡◌, IfOk, option_map};
ghost use Rattle.sp_spec.specs.Formula.{Written};
ghost use Rattle.sp_spec_text.specs.Bindings as spec;
ghost use Rattle.sp_read_parts.specs.Views as parts;

use sp_read_parts::{WrittenBinding, WrittenRule, WrittenTerm, WrittenVariable};
use sp_term::apply::{Assigns, apply};
use sp_term::term::Term;
use sp_written::BoundRule;
use std::alloc::{AllocError, Global};

/// What stands for names; for a name that is bound twice the first value counts.
#[derive(Clone, Copy)]
struct Values<'a, 'b> {
    bindings: &'b Vec<WrittenBinding<'a>>,
}

/// The value of the first binding of this name, whatever its mark.
fn bound_value<'a, 'b>(
    bindings: &'b Vec<WrittenBinding<'a>>,
    name: &str,
) -> Option<&'b WrittenTerm<'a>>
    ensures { option_map (λ t. parts.term t.now) result ≡ spec.bound_value (parts.bindings bindings.now.items) name.now }
{
    for binding in bindings {
        if binding.variable.name == name {
            return Some(&binding.value);
        }
    }
    None
}

/// An equal term, which shares its arguments.
fn shared<'a>(term: &WrittenTerm<'a>) -> Result<WrittenTerm<'a>, AllocError>
    ensures { IfOk result (λ t. parts.term t ≡ parts.term term.now) }
{
    match term {
        Term::Var(variable) => Ok(Term::Var(*variable)),
        Term::Constant(name) => Ok(Term::Constant(name.clone()?)),
        Term::FreshName(number) => Ok(Term::FreshName(*number)),
        Term::App(symbol, terms, nesting) => {
            let name = symbol.clone()?;
            let args = terms.clone()?;
            Ok(Term::App(name, args, *nesting))
        }
    }
}

impl<'a, 'b> Assigns<WrittenVariable<'a>, WrittenVariable<'a>> for Values<'a, 'b> {
    ghost From = { Written };

    ghost To = { Written };

    ghost from_of = { parts.variable };

    ghost to_of = { parts.variable };

    ghost value_of = { λ v. spec.value_by (parts.bindings v.bindings.now.items) };

    fn value(
        &self,
        _alloc: Global,
        leaf: &WrittenVariable<'a>,
    ) -> Result<WrittenTerm<'a>, AllocError> {
        match bound_value(self.bindings, leaf.name) {
            Some(value) => shared(value),
            None => Ok(Term::Var(*leaf)),
        }
    }
}

/// The binding with the values of those above it in its own.
fn binding_with<'a>(
    alloc: Global,
    above: &Vec<WrittenBinding<'a>>,
    written: &WrittenBinding<'a>,
) -> Result<WrittenBinding<'a>, AllocError>
    ensures { IfOk result (λ b. parts.binding b ≡ spec.binding_with (parts.bindings above.now.items) (parts.binding written.now)) }
{
    let values = Values { bindings: above };
    let value = apply(alloc, &values, &written.value)?;
    Ok(WrittenBinding {
        variable: written.variable,
        value,
    })
}

/// The bindings from the top down, each with the values of those above it.
fn whole<'a>(
    alloc: Global,
    bindings: &Vec<WrittenBinding<'a>>,
) -> Result<Vec<WrittenBinding<'a>>, AllocError>
    ensures { IfOk result (λ bs. parts.bindings bs.items ≡ spec.whole (parts.bindings bindings.now.items)) }
{
    let mut above = Vec::with_capacity(alloc, bindings.len())?;
    for binding in bindings {
        let made = binding_with(alloc, &above, binding)?;
        above.push(made)?;
    }
    Ok(above)
}

/// The rule with these values in its facts.
fn with_whole<'a>(
    alloc: Global,
    bindings: &Vec<WrittenBinding<'a>>,
    written: &WrittenRule<'a>,
) -> Result<WrittenRule<'a>, AllocError>
    ensures { IfOk result (λ r. parts.rule r ≡ spec.with_whole (parts.bindings bindings.now.items) (parts.rule written.now)) }
{
    let values = Values { bindings };
    let facts = written.facts.changed(alloc, &values)?;
    Ok(WrittenRule {
        name: written.name,
        facts,
    })
}

/// The rule with the values of its bindings in its facts.
///
/// # Errors
///
/// `AllocError` where memory is wanting, or a term with its values would nest deeper than terms may.
pub fn with_values<'a>(alloc: Global, written: BoundRule<'a>) -> Result<WrittenRule<'a>, AllocError>
    ensures { IfOk result (λ r. parts.rule r ≡ spec.with_values (parts.bindings written.entry.bindings.items) (parts.rule written.entry.rule)) }
{
    let BoundRule { bindings, rule } = written;
    if bindings.is_empty() {
        Ok(rule)
    } else {
        let values = whole(alloc, &bindings)?;
        let made = with_whole(alloc, &values, &rule)?;
        Ok(made)
    }
}
