// The forms of rules in memory, the indexes of rules by their actions and by their conclusions, and terms inside of which an equation could be used.
// Below stand the definition of forms (sp_spec_forms), facts and equations in memory (sp_fact); above stand the making of forms
// (sp_variant), the moves of a proof, and the logs that are looked for.
// Each call is exact: an index has exactly the rules some form of which has an action, or a conclusion, of the name, and a term is found reducible exactly where
// a left side of an equation matches a term inside it. What the values here stand for is said in specs/View.antt.
#![tactic(auto)]

pub mod book;
pub mod form;
pub mod reducible;
