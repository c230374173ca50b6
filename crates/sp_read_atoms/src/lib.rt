// Reads formulas without formulas in them, and the bindings of `let`, from tokens.
// Below stand variables, terms and facts as they are read (sp_read_parts) and tokens (sp_lex); formulas (sp_read_formula), what theories list
// (sp_read_listings) and rules (sp_read_rules) are read above.
// Carried here: the promise that texts are read exactly, for atoms and bindings (specs/Atoms.antt, Lets.antt). What the grammar of sp_spec_text spells of
// terms, facts and bindings is read where nothing follows by which it could go on (proofs/Taken.antt, LetBindings.antt).
#![tactic(auto)]

pub mod atoms;
pub mod bindings;

ghost use Rattle.sp_read_atoms.specs.Laws.{BindingsAreOne};

/// What `let` binds, and what follows its `in`, are fixed by the tokens.
pub fn bindings_are_one()
    ensures { BindingsAreOne }
{}
