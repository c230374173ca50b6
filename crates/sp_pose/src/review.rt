// The report on a text, with how many findings there are of each kind.

ghost use Rattle.std.specs.Prelude.{◌≡◌, ◌++◌, IfOk, OnOk};
ghost use Rattle.sp_pose.specs.Problem.{counted};
ghost use Rattle.sp_pose.specs.Reviewed.{IsReviewOf, IsReviewedBy};

use crate::examined::{SaidTheory, examined, report};
use sp_warn::warnings;
use std::alloc::{AllocError, Global};

/// What is said of the theory of a text.
#[derive(Drop)]
pub struct Review {
    /// a line for each finding, and the counts
    pub text: Vec<u8>,
    /// whether no finding is fatal
    pub is_fine: bool,
}

/// What comes of reviewing a text.
#[derive(Drop)]
pub enum Reviewing {
    /// It says no theory, and is refused at this place.
    Refused(usize),
    /// It says a theory, of which this is said.
    Done(Review),
}

/// How many findings are fatal, and how many warnings there are.
fn write_counts(
    alloc: Global,
    text: &mut Vec<u8>,
    fatal: usize,
    warnings: usize,
) -> Result<(), AllocError>
    ensures { OnOk result (text.new.items ≡ text.old.items ++ counted fatal warnings) }
{
    let counts = format!(in alloc; "{fatal} fatal, {warnings} warnings\n")?;
    text.extend_from_slice(counts.as_bytes())
}

/// What is said of the theory.
fn review_of(alloc: Global, examined: &SaidTheory) -> Result<Review, AllocError>
    ensures { IfOk result (IsReviewOf examined.now) }
{
    let warnings = warnings(alloc, &examined.theory)?;
    let mut text = report(alloc, &examined.fatal, &warnings)?;
    write_counts(alloc, &mut text, examined.fatal.len(), warnings.len())?;
    Ok(Review {
        text,
        is_fine: examined.fatal.is_empty(),
    })
}

/// What is said of the theory of a text: a line for each fatal finding, one for each warning, and how many there are of each.
///
/// # Errors
///
/// `AllocError` where memory is wanting.
#[tactic(auto, using(crate::proofs::Posed::reviewed_on))]
pub fn reviewed(alloc: Global, text: &[u8]) -> Result<Reviewing, AllocError>
    ensures { IfOk result (IsReviewedBy text.now) }
{
    match examined(alloc, text)? {
        Err(place) => Ok(Reviewing::Refused(place)),
        Ok(examined) => {
            let review = review_of(alloc, &examined)?;
            Ok(Reviewing::Done(review))
        }
    }
}
