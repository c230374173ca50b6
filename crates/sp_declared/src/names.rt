// The variables of terms; their names, each once, and the places of these.

ghost use Rattle.std.specs.Prelude.{◌≡◌, ◌++◌, ◌∷◌, [], IfOk, OnOk, map, if◌then◌else◌};
ghost use Rattle.sp_spec.specs.Term.{in_term, in_terms};
ghost use Rattle.sp_spec.specs.Written as written;
ghost use Rattle.sp_read_parts.specs.Views as view;
ghost use Rattle.sp_declared.specs.View.{texts_of};

use sp_read_parts::{WrittenTerm, WrittenVariable};
use sp_term::term::Term;
use std::alloc::{AllocError, Global};

/// Puts the variables of the term at the end, from left to right.
///
/// # Errors
///
/// `AllocError` where memory is wanting.
#[cycle(variables)]
pub fn push_variables<'a>(
    found: &mut Vec<WrittenVariable<'a>>,
    term: &WrittenTerm<'a>,
) -> Result<(), AllocError>
    ensures { OnOk result (map view.variable found.new.items ≡ map view.variable found.old.items ++ in_term (view.term term.now)) }
{
    match term {
        Term::Var(variable) => {
            found.push(*variable)?;
            Ok(())
        }
        Term::Constant(_) | Term::FreshName(_) => Ok(()),
        Term::App(_, terms, _) => push_all_variables(found, terms),
    }
}

/// Puts the variables of the terms at the end, from left to right.
///
/// # Errors
///
/// `AllocError` where memory is wanting.
#[cycle(variables)]
pub fn push_all_variables<'a>(
    found: &mut Vec<WrittenVariable<'a>>,
    terms: &Vec<WrittenTerm<'a>>,
) -> Result<(), AllocError>
    ensures { OnOk result (map view.variable found.new.items ≡ map view.variable found.old.items ++ in_terms (view.terms terms.now.items)) }
{
    for term in terms {
        push_variables(found, term)?;
    }
    Ok(())
}

/// Whether the name is one of these.
pub fn is_listed(name: &str, names: &Vec<&str>) -> bool
    ensures { result ≡ written.is_listed name.now (texts_of names.now.items) }
{
    for listed in names {
        if *listed == name {
            return true;
        }
    }
    false
}

/// Puts the name at the end, unless it is there.
///
/// # Errors
///
/// `AllocError` where memory is wanting.
pub fn see<'a>(seen: &mut Vec<&'a str>, name: &'a str) -> Result<(), AllocError>
    ensures { OnOk result (texts_of seen.new.items ≡ (if written.is_listed name.now (texts_of seen.old.items) then texts_of seen.old.items else texts_of seen.old.items ++ name.now ∷ [])) }
{
    if !is_listed(name, seen) {
        seen.push(name)?;
    }
    Ok(())
}

/// The names of these variables, each once, in first-seen order.
///
/// # Errors
///
/// `AllocError` where memory is wanting.
pub fn names<'a>(
    alloc: Global,
    variables: &Vec<WrittenVariable<'a>>,
) -> Result<Vec<&'a str>, AllocError>
    ensures { IfOk result (λ ns. texts_of ns.items ≡ written.names_after [] (map view.variable variables.now.items)) }
{
    let mut seen = Vec::new(alloc);
    for variable in variables {
        see(&mut seen, variable.name)?;
    }
    Ok(seen)
}

/// The place of a name among these, or behind them where it isn't there.
pub fn place_of(name: &str, names: &Vec<&str>) -> usize
    ensures { result ≡ written.place_of name.now (texts_of names.now.items) }
{
    for (place, listed) in names.iter().enumerate() {
        if *listed == name {
            return place;
        }
    }
    names.len()
}
