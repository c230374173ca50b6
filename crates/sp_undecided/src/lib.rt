// The first move that decides something which a system leaves open, found without making its cases: how two times lie, whether two names are the same, and
// what stands for a message.
// Below stand which moves these are (sp_spec_proof) and their tests (sp_moves_decide); above stands the choice of a move (sp_search). Only what stands in the
// system is compared, and times and names that stand nowhere are left out before any two are.
// Carried here: the promise that the move found is the first of its kind, and that there is none where none is found.
#![tactic(auto)]

pub mod messages;
mod names;
pub mod sides;
pub mod times;
