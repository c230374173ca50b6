// The texts of proof trees, written and read back.
// Below stand proof trees (sp_spec_proof), trees in memory (sp_search), written proofs (sp_written), and proof trees as they are read (sp_check),
// which judges them; above stands what is written of a text (sp_analysis).
// The words of moves are a table of sp_spec_system (specs/Words.antt). Here specs/TreeText.antt is the text of a tree; texts are cut into words
// by functions in specs/MoveTexts.antt; specs/Steps.antt says what a method says, and which tree a written proof says.
// Carried here: the promise that what is printed of a tree is its text, and that the tree of a written proof is the one that it says; that the
// text of a tree is read back as that tree, where its cases have names or are alone (specs/Spelling.antt). Accepted trees whose sides a text can
// hold, and so grown ones, are such trees.
#![tactic(auto)]

ghost use Rattle.sp_skel.specs.Laws.{AcceptedTreesAreReadable, TreesAreReadBack, WordsAreMoves};

mod around;
mod lines;
mod steps;
mod texts;
mod tree_texts;
mod trees;

pub use tree_texts::tree_text;
pub use trees::skeleton;

/// The words of moves are written by a table, and read by its inverse.
pub fn words_are_moves()
    ensures { WordsAreMoves }
{}

/// The text of a tree, whatever follows it, is cut into tokens that spell a proof, which says the tree.
pub fn trees_are_read_back()
    ensures { TreesAreReadBack }
{}

/// Accepted trees whose sides a text can hold, and so grown ones, are trees whose texts are read back, where rules, symbols and public names have
/// such names as stand in texts.
pub fn accepted_trees_are_readable()
    ensures { AcceptedTreesAreReadable }
{}
