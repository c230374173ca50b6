// What is written of a text whose rules' forms are listed.
// Below stand what a text poses (sp_pose), the forms of a rule in memory (sp_variant) and the texts of ground terms and actions (sp_show); above stands
// the top call.
// Carried here: the promise that each rule is written with its forms, in their order.
#![tactic(auto)]

mod listing;
mod text;

ghost use Rattle.sp_rule_forms.specs.Laws.{ListsAreOne};

pub use listing::variants;

/// Of a text one thing is answered.
pub fn lists_are_one()
    ensures { ListsAreOne }
{}
