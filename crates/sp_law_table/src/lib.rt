// The source table that is made is right.
// Below stand how it is made (sp_spec_table), the law that no solution is lost (sp_law_cover), and the laws of joined cases and of leaves (sp_law_sources).
// Nothing stands above it yet: it is what a context with a table owes.
// Carried here: each entry of a table that is made loses no solution of the system that it begins from, so that a context may have the table.
// The functions do nothing when they run: the one clause of each is a law.
#![tactic(auto)]

ghost use Rattle.sp_law_table.specs.Laws.{TablesAreRight, TablesSuit, SourcesCover, EntriesAreMade, RootsMayBeTaken};

/// Each entry of a table that is made is right.
pub fn tables_are_right()
    ensures { TablesAreRight }
{}

/// A context may have the table that is made for it, and what a context has is right.
pub fn tables_suit()
    ensures { TablesSuit }
{}

/// The move that uses a table, with its cases simplified, loses no solution.
pub fn sources_cover()
    ensures { SourcesCover }
{}

/// The table has an entry of each message that is to have one.
pub fn entries_are_made()
    ensures { EntriesAreMade }
{}

/// The formulas with which a proof begins may be taken.
pub fn roots_may_be_taken()
    ensures { RootsMayBeTaken }
{}
