// Decided systems: in a closed system in which nothing is left to decide, each solution's log is the one that the system suggests, under other names.
// Below stand the log that a system suggests (sp_spec_solved), which systems suggest one (sp_law_candidate), and what other names leave as it is
// (sp_law_exchange); above stand what tests such systems (sp_law_finish) and the covering of `finish` (sp_law_cover), which ends a search in one.
// Carried here: the suggested log is a learning log over which the same formulas are true, so that no solution is what is sought where it isn't; a test
// tells such systems; two premises are shown to be needed. The functions do nothing when they run: the one clause of each is a law.
#![tactic(auto)]

ghost use Rattle.sp_law_decided.specs.Examples.{DecidedSystemsHaveSolutions, TimesAreToDiffer, ChainTimesAreToBeCompared};
ghost use Rattle.sp_law_decided.specs.Laws.{DecidedLogsAreTheCandidate, SolutionsAreSuggested, DecidedIsTested, UnsoughtIsUnsolved};

/// A closed system in which nothing is left to decide suggests a log, and each solution's log becomes that one by a list of exchanges of names.
pub fn decided_logs_are_the_candidate()
    ensures { DecidedLogsAreTheCandidate }
{}

/// Where some solution of it is over a learning log, such a system suggests a learning log, over which the same formulas are true.
pub fn solutions_are_suggested()
    ensures { SolutionsAreSuggested }
{}

/// Whether anything is left to decide is tested: a system of these names, whose events have times of their own, is decided if it passes.
pub fn decided_is_tested()
    ensures { DecidedIsTested }
{}

/// Some decided system has a solution, in a learning log and with an event at each position.
pub fn decided_systems_have_solutions()
    ensures { DecidedSystemsHaveSolutions }
{}

/// A system with two events at one time suggests another log than that of its solution.
pub fn times_are_to_differ()
    ensures { TimesAreToDiffer }
{}

/// A system whose chain begins at a time that isn't compared, though its events' times are, suggests another log than that of its solution.
pub fn chain_times_are_to_be_compared()
    ensures { ChainTimesAreToBeCompared }
{}

/// Where what is suggested isn't what is sought, such a system has no solution that is.
pub fn unsought_is_unsolved()
    ensures { UnsoughtIsUnsolved }
{}
