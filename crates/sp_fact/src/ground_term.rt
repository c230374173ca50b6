// Ground terms.

use sp_term::term::{Never, Term};

/// A message term without variables.
pub type GroundTerm = Term<Never>;
