// Laws of learning logs: which destructions there are, what a part of a log is, and where what stands in a log comes from.
// Below stand sp_spec (destructions, logs) and the laws of equality and of runs, by which instances of rules have normal forms over the signature.
// Above stands whoever follows what the adversary learns back to what was put out.
// Carried here: each place on the way to an equation's right side is listed once, and each fresh name is some Fr's, or the adversary's own, first.
// The functions do nothing when they run: the one clause of each is a law.
#![tactic(auto)]

ghost use Rattle.sp_law_log.specs.Laws.{DestructionsComplete, DestructionsSound, PlacesAreListedOnce, PrefixesAreLogs, NamesHaveOrigins, LogsAreOver, LogsAreNormal};

/// Each place on the way to where an equation's right side stands has its destruction in the list.
pub fn destructions_complete()
    ensures { DestructionsComplete }
{}

/// Each destruction of the list is that of such a place.
pub fn destructions_sound()
    ensures { DestructionsSound }
{}

/// The places of a way and those of the list of its destructions are one to one.
pub fn places_are_listed_once()
    ensures { PlacesAreListedOnce }
{}

/// What came before an entry of a log is a log.
pub fn prefixes_are_logs()
    ensures { PrefixesAreLogs }
{}

/// Each fresh name in a log was used by an Fr, or as one of the adversary's own, before it stands anywhere else.
pub fn names_have_origins()
    ensures { NamesHaveOrigins }
{}

/// All that stands in a log is over the signature.
pub fn logs_are_over()
    ensures { LogsAreOver }
{}

/// All that stands in a log is in normal form.
pub fn logs_are_normal()
    ensures { LogsAreNormal }
{}
