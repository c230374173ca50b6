// What holds of the log that a system suggests, and which systems suggest one.
// Below stand the definition of that log (sp_spec_solved) and the laws of systems (sp_law_system), and no code; above stands what is printed of
// a log that is found (sp_law_printed_log).
// Carried here: its events stand in the order of their times, and the names that its variables are given are apart, however many there are. A
// system suggests a log exactly where it is settled how what is learnt is learnt, its premises are Fr or have links from its events, its
// actions have events, and its order has no cycle. The listing of the events never gets stuck where there is none.
#![tactic(auto)]

ghost use Rattle.sp_law_candidate.specs.Laws.{EventsAreInOrder, NamesAreApart, SolvedSystemsSuggestLogs};

/// The listed events are all of them, and each stands behind those that are before it.
pub fn events_are_in_order()
    ensures { EventsAreInOrder }
{}

/// The variables are given names of their sorts, different ones, and none of the theory's.
pub fn names_are_apart()
    ensures { NamesAreApart }
{}

/// A system suggests a log exactly where it is settled how each message is learnt, each premise is an Fr or has a link from an event, each
/// action has an event at its time, and the order has no cycle.
pub fn solved_systems_suggest_logs()
    ensures { SolvedSystemsSuggestLogs }
{}
