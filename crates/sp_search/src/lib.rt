// Proof trees in memory, and how they are grown.
// Below stand which trees are accepted and how they are grown (sp_spec_proof), the moves in memory and which of them is chosen (sp_step), and logs
// in memory (sp_learn); above stands the top call. Each call is exact: the tree is the one that growth gives, so that it is accepted and has at most budget steps, and
// the log that it keeps is the one with which the search ends.
// Carried here: the promise that a tree without open leaves is one that the written rules accept.
#![tactic(auto)]

mod block;
mod blocks;
mod class;
mod count;
mod grow;
mod node;
mod parts;
mod tree;

pub use count::{is_finished, steps};
pub use grow::grown_tree;
pub use node::{Node, OpenLeaf};
pub use sp_step::choose::{Ranked, choice};
pub use tree::Tree;
