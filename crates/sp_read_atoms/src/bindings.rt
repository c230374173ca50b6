ghost use Rattle.std.specs.Prelude.{◌≡◌, [], ◌∷◌, MatchOption, IfSome, IfOk, OnOk, ◌++◌, ◌≤◌, ◌<◌, length};
ghost use Rattle.sp_spec_text.specs.Lists.{NoReading};
ghost use Rattle.sp_spec_text.specs.Theories.{SpellsBindings};
ghost use Rattle.sp_read_atoms.specs.Lets.{IsBinding};
ghost use Rattle.sp_read_parts.specs.Views as view;
ghost use Rattle.sp_read_parts.specs.Views.{seen_from};

use sp_lex::{Sign, Token};
use sp_read_parts::WrittenBinding;
use sp_read_parts::cursor::{after, behind};
use sp_read_parts::terms::{term, variable};
use std::alloc::{AllocError, Global};

/// A variable, `=` and a term, and the place behind them.
#[tactic(auto, using(crate::proofs::LetBindings::lone_bindings))]
fn binding<'a>(
    alloc: Global,
    tokens: &[Token<'a>],
    at: usize,
) -> Result<Option<(WrittenBinding<'a>, usize)>, AllocError>
    ensures value { IfOk result (λ o. MatchOption o (NoReading IsBinding (seen_from tokens.now at)) (λ x. IsBinding (seen_from tokens.now at) (view.binding x.0) (seen_from tokens.now x.1))) }
    ensures further { IfOk result (λ o. IfSome o (λ x. (at < x.1) × (x.1 ≤ length tokens.now))) }
{
    let Some((variable, sign)) = variable(tokens, at) else {
        return Ok(None);
    };
    let Some(inside) = after(Sign::Equals, tokens, sign) else {
        return Ok(None);
    };
    let Some((value, rest)) = term(alloc, 0, tokens, inside)? else {
        return Ok(None);
    };
    Ok(Some((WrittenBinding { variable, value }, rest)))
}

/// Puts a binding at the end.
fn push_binding<'a>(
    found: &mut Vec<WrittenBinding<'a>>,
    next: WrittenBinding<'a>,
) -> Result<(), AllocError>
    ensures { OnOk result (view.bindings found.new.items ≡ view.bindings found.old.items ++ view.binding next.entry ∷ []) }
{
    found.push(next)?;
    Ok(())
}

/// What stands behind `let`, up to `in`: bindings, one or more, and the place behind that word.
///
/// # Errors
///
/// There is no memory.
#[tactic(auto, using(crate::proofs::LetBindings::binding_lists))]
pub fn bindings<'a>(
    alloc: Global,
    tokens: &[Token<'a>],
    at: usize,
) -> Result<Option<(Vec<WrittenBinding<'a>>, usize)>, AllocError>
    // What is read is spelled there, and where nothing is read nothing is spelled.
    ensures value { IfOk result (λ o. MatchOption o (NoReading SpellsBindings (seen_from tokens.now at)) (λ x. SpellsBindings (seen_from tokens.now at) (view.bindings x.0.items) (seen_from tokens.now x.1))) }
    ensures further { IfOk result (λ o. IfSome o (λ x. (at < x.1) × (x.1 ≤ length tokens.now))) }
{
    let mut found = Vec::new(alloc);
    let mut rest = at;
    loop {
        let Some((next, ahead)) = binding(alloc, tokens, rest)? else {
            return Ok(None);
        };
        push_binding(&mut found, next)?;
        if let Some(end) = behind("in", tokens, ahead) {
            return Ok(Some((found, end)));
        }
        rest = ahead;
    }
}
