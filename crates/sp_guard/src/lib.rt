// The guarded form of any written formula, its negation, and the findings on both.
// Below stand written formulas (sp_read_parts), formulas in memory (sp_formula), and the definitions of the forms and of the findings
// (sp_law_guard); above stands what begins proofs.
// Carried here: each call is exact. It gives what the definition gives, and none where that gives none: where a name has no binder, a
// message stands for a time or a time for a message, a quantifier is not guarded, a variable is used against its mark, or an action
// has too many arguments. So the formula with which a proof begins is the one that the definition makes of the text's formula.
#![tactic(auto)]

pub mod form;
pub mod guarded;
pub mod join;
pub mod marks;
pub mod meaning;
pub mod negate;
pub mod place;
pub mod unguarded;
