// Reads formulas from tokens.
// Below stand formulas without formulas in them (sp_read_atoms) and their parts (sp_read_parts) as they are read, and tokens (sp_lex); lemmas are read
// above (sp_read_lemmas).
// Carried here: the promise that texts are read exactly, for formulas. What a reader gives is spelled by the tokens that it takes, in the grammar of
// sp_spec_text; where it gives nothing, no text of the grammar stands there (specs/Reading.antt, Closed.antt).
// Behind an opening quote wide signs of logic are read as the text beside them, in a copy of the tokens (quoted).
#![tactic(auto)]

pub mod formulas;
pub mod quoted;

ghost use Rattle.sp_read_formula.specs.Closed.{ClosedFormulasAreOne, QuotedFormulasAreOne};

/// What is spelled before a closing sign, and what follows it, are fixed by the tokens.
pub fn closed_formulas_are_one()
    ensures { ClosedFormulasAreOne }
{}

/// A formula behind its opening quote, and what follows its closing quote, are fixed by the tokens.
pub fn quoted_formulas_are_one()
    ensures { QuotedFormulasAreOne }
{}
