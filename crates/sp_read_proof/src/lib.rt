// Reads the proofs that stand in texts.
// Below stand tokens (sp_lex), the cursor over them (sp_read_parts), lists of nodes (sp_spec_nodes), and proofs as they are written (sp_written),
// where a step is a word or the text of a goal and is not understood yet. The reader of theories (sp_read_theory) and what says trees of them
// (sp_skel) stand above.
// The grammar is sp_spec_text's (specs/Proofs.antt), over lexemes.
// Carried here: the promise that proofs are read exactly. What is read is spelled by the tokens that it takes; where nothing is read, no
// proof stands there; and tokens spell one proof. Proofs are read line by line (specs/Lines.antt, specs/Frames.antt) into their steps, without a
// recursion: what of them is in memory is a list of steps and one of places in it (specs/Held.antt).
#![tactic(auto)]

ghost use Rattle.sp_read_proof.specs.Laws.{ProofsAreOne};

mod frames;
mod lines;
mod proofs;

pub use proofs::proof;

/// Tokens that begin with a proof spell one, and one rest follows it.
pub fn proofs_are_one()
    ensures { ProofsAreOne }
{}
