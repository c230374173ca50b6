// What is written of a text with proofs is read again as the same text with those proofs.
// Below stand the readers of texts (sp_lex, sp_read_theory), and the texts of trees, which are read back (sp_skel).
// Carried here: the promise that a text of which some lemmas' proofs are replaced by the texts of trees says the same theory, each of these
// lemmas with the proof that is written for it and the others with their own, and that it ends with its word `end`, whatever is written behind it.
#![tactic(auto)]

ghost use Rattle.sp_law_reread.specs.Laws.{TextsAreReadAgain, TextsEnd};
ghost use Rattle.sp_law_reread.specs.Named.{RulesAreNamed};

/// A text with trees in the places of some of its proofs says the same theory, with those trees as proofs, and the other proofs stay.
pub fn texts_are_read_again()
    ensures { TextsAreReadAgain }
{}

/// The rules of a text have names as they stand in a text.
pub fn rules_are_named()
    ensures { RulesAreNamed }
{}

/// Behind the word `end` of a text with trees in the places of some of its proofs stands what is written there, and of each text one thing stands there.
pub fn texts_end()
    ensures { TextsEnd }
{}
