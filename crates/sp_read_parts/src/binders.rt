ghost use Rattle.std.specs.Prelude.{◌≡◌, [], ◌∷◌, MatchOption, IfSome, IfOk, OnOk, map, ◌++◌, ◌≤◌, ◌<◌, length};
ghost use Rattle.sp_spec_text.specs.Lists.{NoReading};
ghost use Rattle.sp_read_parts.specs.Parts.{AreBinders};
ghost use Rattle.sp_read_parts.specs.Views as view;
ghost use Rattle.sp_read_parts.specs.Views.{seen_from};

use crate::cursor::after;
use crate::terms::variable;
use crate::written::WrittenVariable;
use sp_lex::{Sign, Token};
use std::alloc::{AllocError, Global};

/// Puts a variable at the end.
fn push_variable<'a>(
    found: &mut Vec<WrittenVariable<'a>>,
    next: WrittenVariable<'a>,
) -> Result<(), AllocError>
    ensures { OnOk result (map view.variable found.new.items ≡ map view.variable found.old.items ++ view.variable next.entry ∷ []) }
{
    found.push(next)?;
    Ok(())
}

/// Variables up to a dot, and the place behind it.
#[tactic(auto, using(crate::proofs::Until::binder_lists))]
pub fn binders<'a>(
    alloc: Global,
    tokens: &[Token<'a>],
    at: usize,
) -> Result<Option<(Vec<WrittenVariable<'a>>, usize)>, AllocError>
    ensures value { IfOk result (λ o. MatchOption o (NoReading AreBinders (seen_from tokens.now at)) (λ x. AreBinders (seen_from tokens.now at) (map view.variable x.0.items) (seen_from tokens.now x.1))) }
    ensures further { IfOk result (λ o. IfSome o (λ x. (at < x.1) × (x.1 ≤ length tokens.now))) }
{
    let mut found = Vec::new(alloc);
    let mut rest = at;
    loop {
        let Some((next, ahead)) = variable(tokens, rest) else {
            return Ok(None);
        };
        push_variable(&mut found, next)?;
        if let Some(end) = after(Sign::Dot, tokens, ahead) {
            return Ok(Some((found, end)));
        }
        rest = ahead;
    }
}
