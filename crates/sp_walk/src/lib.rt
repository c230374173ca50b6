// Walks over formulas that were read: what is asked of their atoms, and what their atoms give.
// Below stand formulas as they are read (sp_read_parts); above it whoever asks something of each atom of a formula, whatever joins them.
// Each walk is exact: it tells what the definition tells of the formula, where each atom is tested as its trait says.
// src/atom.rt has the atoms, src/any.rt whether one of them passes a test, src/collect.rt what they give within the reach of their binders.
#![tactic(auto)]

mod any;
mod atom;
mod collect;

pub use any::{TestsAtoms, any_atom};
pub use atom::ReadAtom;
pub use collect::{Collects, collect_atoms, collect_closed, within};
