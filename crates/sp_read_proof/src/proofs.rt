// Proofs, read line by line into their steps. The steps of which a case is being read stand in a list, so that proofs nest without a limit.

ghost use Rattle.std.specs.Prelude.{◌≡◌, List, MatchOption, IfSome, IfOk, ◌≤◌, ◌<◌, length};
ghost use Rattle.sp_spec_nodes.specs.Preorder.{AreTrees};
ghost use Rattle.sp_spec_text.specs.Lists.{NoReading};
ghost use Rattle.sp_spec_text.specs.Written as text;
ghost use Rattle.sp_read_parts.specs.Views.{seen_from};
ghost use Rattle.sp_written.specs.Views as view;
ghost use Rattle.sp_spec_text.specs.Proofs.{SpellsProof};
ghost use Rattle.sp_read_proof.specs.Frames as spec;
ghost use Rattle.sp_read_proof.specs.Held.{Ends, HasEnded};
ghost use Rattle.sp_read_proof.specs.View.{steps_of, frames_of, ClosesTo, place_of};

use crate::frames::{
    Behind, Closed, Frame, Line, name_case, pop_frame, push_frame, push_leaf, push_step,
};
use crate::lines::{behind_case, line};
use sp_lex::Token;
use sp_written::{WrittenProof, WrittenStep};
use std::alloc::{AllocError, Global};

/// Goes on behind a proof that has ended, up to the whole or to the next case.
fn close<'a>(
    steps: &mut Vec<WrittenStep<'a>>,
    frames: &mut Vec<Frame>,
    tokens: &[Token<'a>],
    at: usize,
) -> Result<Option<Closed>, AllocError>
    requires ended { HasEnded (frames_of frames.old.items) (steps_of steps.old.items) }
    requires within { at ≤ length tokens.now }
    ensures value { IfOk result (λ o. (fs : List spec.Frame) (k : text.WrittenProof) → Ends (frames_of frames.old.items) (steps_of steps.old.items) fs k
        → MatchOption o (NoReading (spec.Completes fs k) (seen_from tokens.now at)) (ClosesTo fs k tokens.now at frames.new.items steps.new.items)) }
    ensures further { IfOk result (λ o. IfSome o (λ x. (at ≤ place_of x) × (place_of x ≤ length tokens.now))) }
{
    let mut rest = at;
    while let Some(frame) = pop_frame(frames) {
        match frame {
            Frame::Lone => {}
            Frame::Among(place) => {
                let Some((end, ahead)) = behind_case(tokens, rest) else {
                    return Ok(None);
                };
                match end {
                    Behind::Ended => rest = ahead,
                    Behind::Another(next) => {
                        name_case(steps, place, next)?;
                        push_frame(frames, Frame::Among(place))?;
                        return Ok(Some(Closed::Case(ahead)));
                    }
                }
            }
        }
    }
    Ok(Some(Closed::Whole(rest)))
}

/// The proof that these steps are.
fn whole<'a>(steps: Vec<WrittenStep<'a>>) -> WrittenProof<'a>
    requires { AreTrees view.case_count 1 (steps_of steps.items) }
    ensures { view.proof result ≡ view.written_proof (steps_of steps.entry.items) }
{
    WrittenProof { steps }
}

/// The proof that stands at this place, and the place behind it; none where no proof stands there.
///
/// # Errors
///
/// There is no memory.
pub fn proof<'a>(
    alloc: Global,
    tokens: &[Token<'a>],
    at: usize,
) -> Result<Option<(WrittenProof<'a>, usize)>, AllocError>
    // What is read is spelled there, and where nothing is read nothing is spelled.
    ensures value { IfOk result (λ o. MatchOption o (NoReading SpellsProof (seen_from tokens.now at)) (λ x. SpellsProof (seen_from tokens.now at) (view.proof x.0) (seen_from tokens.now x.1))) }
    ensures further { IfOk result (λ o. IfSome o (λ x. (at < x.1) × (x.1 ≤ length tokens.now))) }
{
    let mut steps: Vec<WrittenStep<'a>> = Vec::new(alloc);
    let mut frames: Vec<Frame> = Vec::new(alloc);
    let mut rest = at;
    loop {
        let Some((first, ahead)) = line(tokens, rest) else {
            return Ok(None);
        };
        match first {
            Line::Alone(method) => {
                push_step(alloc, &mut steps, method, "")?;
                push_frame(&mut frames, Frame::Lone)?;
                rest = ahead;
            }
            Line::Cases(method, name) => {
                let place = steps.len();
                push_step(alloc, &mut steps, method, name)?;
                push_frame(&mut frames, Frame::Among(place))?;
                rest = ahead;
            }
            Line::Leaf(method) => {
                push_leaf(alloc, &mut steps, method)?;
                let Some(end) = close(&mut steps, &mut frames, tokens, ahead)? else {
                    return Ok(None);
                };
                match end {
                    Closed::Whole(behind) => return Ok(Some((whole(steps), behind))),
                    Closed::Case(next) => rest = next,
                }
            }
        }
    }
}
