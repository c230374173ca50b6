// Laws of the source table: its cases lose no solution, neither where they are made nor where they are used.
// Below stand its definitions (sp_spec_sources), the move that uses it (sp_spec_know), the laws of logs (sp_law_log) and of systems (sp_law_system) and the
// covering of the other rows and moves (sp_law_formula, sp_law_know); above stands how a table is made (sp_law_table), and nothing cites it yet.
// Carried here: a system and the renamed one have the same solutions, joined cases lose none, and lists of leaves go on to cover.
// The functions do nothing when they run: the one clause of each is a law.
#![tactic(auto)]

ghost use Rattle.sp_law_sources.specs.Laws.{RenamingKeepsSolutions, ValuesAreRaised, TogetherIsBoth, EntriesCover, JoinedIsWellMade, UsesCover, LeavesCover};

/// A system and the renamed one have the same solutions, by values raised as the numbers are.
pub fn renaming_keeps_solutions()
    ensures { RenamingKeepsSolutions }
{}

/// There are such values beside any others.
pub fn values_are_raised()
    ensures { ValuesAreRaised }
{}

/// Two systems together are solved where each is, and where the second says nothing of the last time and isn't closed nothing of either is lost.
pub fn together_is_both()
    ensures { TogetherIsBoth }
{}

/// The cases of an entry that are joined to a system lose no solution of it.
pub fn entries_cover()
    ensures { EntriesCover }
{}

/// What is joined is well made.
pub fn joined_is_well_made()
    ensures { JoinedIsWellMade }
{}

/// The move that uses the table loses no solution.
pub fn uses_cover()
    ensures { UsesCover }
{}

/// A list of open leaves goes on to cover where one of them is replaced by cases that cover it.
pub fn leaves_cover()
    ensures { LeavesCover }
{}
