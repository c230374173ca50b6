// What the proofs of a theory's lemmas have in common.

use sp_book::book::RuleBook;
use sp_fact::signature::Signature;
use sp_formula::formula::Formula;
use sp_term::term::Name;
use sp_written::Attribute;

/// What the proofs of a theory's lemmas have in common.
#[derive(Drop)]
pub struct Setting<'a> {
    /// the symbols and the equations of the theory
    pub signature: Signature,
    /// its rules, with their forms
    pub book: RuleBook,
    /// the public names that stand in it
    pub constants: Vec<Name>,
    /// the guarded forms of its restrictions
    pub restrictions: Vec<Formula>,
    /// how the text asks that its proofs are ranked, as a lemma's own attributes do
    pub ranking: Vec<Attribute<'a>>,
}
