// Cuts a text into tokens, up to its first word `end`.
// Below stands what tokens are (sp_spec_text); the readers of theories stand above, and see tokens alone.
// Carried here: the part of "texts are read exactly" that concerns bytes: a text has one list of tokens, or one first fault.
// The language's pieces are functions in sp_spec_text, specs/Lex.antt, the lists of tokens a relation over them;
// specs/Views.antt here says what the values in memory stand for.
// Comments nest; what stands between the brackets of `solve( )`, and a text block, is one token.
// A token shows its text, and where it begins and ends; a fault its kind, and where it begins.
#![tactic(auto)]

mod cut;
mod token;

ghost use Rattle.sp_lex.specs.Laws.{TextsAreCutOneWay};

pub use cut::{scan, tokens};
pub use token::{FaultKind, LexError, LexFault, Lexeme, Scanned, Sign, Token, Wide};

/// A text has one list of tokens, or one first fault, and not both.
pub fn texts_are_cut_one_way()
    ensures { TextsAreCutOneWay }
{}
