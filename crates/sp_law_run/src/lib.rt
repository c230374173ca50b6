// Laws of executions: what a step takes and gives is one, whichever place a fact is taken from.
// Below stand sp_spec (steps, states, executions) and the laws of equality, by which facts are the same where their normal forms are.
// Above stands sp_exec, which replays steps on a state of normal facts.
// Carried here: the promise that the same steps lead to one state, in normal form and in any order, with one trace.
// The functions do nothing when they run: the one clause of each is a law.
#![tactic(auto)]

ghost use Rattle.sp_law_run.specs.Laws.{FirstPlaceWillDo, StatesAreOne, TracesAreOver, WrittenRulesAreRight};

/// Facts are taken as well from the first places where their normal forms stand.
pub fn first_place_will_do()
    ensures { FirstPlaceWillDo }
{}

/// The same steps lead to states that are alike, with one trace.
pub fn states_are_one()
    ensures { StatesAreOne }
{}

/// The terms of a trace are over the symbols that the rules' terms are over.
pub fn traces_are_over()
    ensures { TracesAreOver }
{}

/// The rules that a text writes are right, if no two have one name.
pub fn written_rules_are_right()
    ensures { WrittenRulesAreRight }
{}
