// Says where a text that says no theory is refused.
// Below stand sp_await, sp_await_formula and sp_await_theory (what a token does to the parts that a text still has to have), sp_law_await (that
// their table has what the grammar has), sp_lex (tokens), and the definitions of the grammar (sp_spec_text); above, what a text poses (sp_pose).
// Carried here: the promise that a text is refused at the first token that no text of the grammar has behind the tokens before it.
// The parts stand in a list. From each list that comes up a text can be ended (sp_law_await), so the tokens that were taken begin a text.
#![tactic(auto)]

mod refused;
mod stack;

ghost use Rattle.sp_place.specs.Laws.{RefusalsAreOne};

pub use refused::refused_at;

/// A text is refused at one place.
pub fn refusals_are_one()
    ensures { RefusalsAreOne }
{}
