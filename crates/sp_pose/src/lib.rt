// What a text sets out to prove: it is read, and its rules, restrictions and lemmas are looked at.
// Below stand the reader (sp_read_theory), the place of what it refuses (sp_place), what its names stand for (sp_declared, sp_resolved), findings and warnings
// (sp_wf, sp_warn), guarded forms (sp_guard) and rules in memory (sp_fact); above stand what is proved and checked (sp_analysis) and what is replayed (sp_replay).
// Carried here: the promise that a text is refused at its place, or reported on by its findings and warnings, or that its rules, with their variables numbered, public
// names, restrictions and lemmas are those that it says, restrictions and lemmas by their guarded forms.
#![tactic(auto)]

mod examined;
mod kind;
mod numbering;
mod problem;
mod reply;
mod review;

pub use kind::kind_text;
pub use numbering::numbered;
pub use problem::{GuardedLemma, GuardedRestriction, Problem, Read, posed_by};
pub use reply::Reply;
pub use review::{Review, Reviewing, reviewed};
