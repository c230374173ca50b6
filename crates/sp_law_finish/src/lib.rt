// Ended searches: where the move `finish` is an instance, nothing is left to decide in a system that has a solution.
// Below stand the kinds of moves (sp_spec_proof), what follows where nothing is left to decide (sp_law_decided), and what the times and the variables of a
// system of a proof are (sp_law_progress, sp_law_system); above stand the joins (sp_law_cover).
// Carried here: each move that could still decide something is an instance, so that a system in which none is one is decided; one premise is shown to be
// needed. The functions do nothing when they run: the one clause of each is a law.
#![tactic(auto)]

ghost use Rattle.sp_law_finish.specs.Examples.{InputsAreReserved};
ghost use Rattle.sp_law_finish.specs.Laws.{EndedIsDecided};

/// Where each kind of moves is asked and none has an instance, nothing is left to decide.
pub fn ended_is_decided()
    ensures { EndedIsDecided }
{}

/// That no rule concludes an In can't be left out: else some system in which no move has an instance has a solution and isn't decided.
pub fn inputs_are_reserved()
    ensures { InputsAreReserved }
{}
