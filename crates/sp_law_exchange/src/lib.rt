// Laws of names exchanged: which public and fresh names stand in a learning log makes no difference, as long as the theory's own stay.
// Below stand sp_spec (learning logs, truth), systems (sp_spec_system), and the laws of equality, of truth, of guarded forms and of destructions.
// Above stands sp_law_decided, with which it is for `finish`, a move that is yet to come: a solution is compared with a log that has other names.
// Carried here: with names changed one to one, and so with names exchanged, logs stay logs, formulas as true, and solutions solutions; and
// there are exchanges that lead given names to given others. The functions do nothing when they run: the one clause of each is a law.
#![tactic(auto)]

ghost use Rattle.sp_law_exchange.specs.ExchangeLaws.{ExchangesAreOneToOne, ExchangesKeepLogs, ExchangesKeepSolutions, ExchangesKeepTruth, ExchangesLead};
ghost use Rattle.sp_law_exchange.specs.Laws.{GuardedFormsBind, ListedNamesAreKept, RenamingsCarryValues, RenamingsKeepLogs, RenamingsKeepSolutions, RenamingsKeepTruth, RenamingsKeepWritten};

/// With other names, one to one, where those of the theory stay, a learning log is one.
pub fn renamings_keep_logs()
    ensures { RenamingsKeepLogs }
{}

/// A formula whose names stay is as true with other names.
pub fn renamings_keep_truth()
    ensures { RenamingsKeepTruth }
{}

/// A written formula with a guarded form whose names stay is as true with other names.
pub fn renamings_keep_written()
    ensures { RenamingsKeepWritten }
{}

/// A system whose names stay is solved with other names.
pub fn renamings_keep_solutions()
    ensures { RenamingsKeepSolutions }
{}

/// Each bound message of a guarded form is bound in it.
pub fn guarded_forms_bind()
    ensures { GuardedFormsBind }
{}

/// With other names a term whose names stay has its value at the values with other names.
pub fn renamings_carry_values()
    ensures { RenamingsCarryValues }
{}

/// Where the listed public names stay, so does what has no names but these.
pub fn listed_names_are_kept()
    ensures { ListedNamesAreKept }
{}

/// An exchange takes itself back, a list of exchanges is one to one, and names that stand in none stay.
pub fn exchanges_are_one_to_one()
    ensures { ExchangesAreOneToOne }
{}

/// Exchanging names that stand in no rule turns a learning log into one.
pub fn exchanges_keep_logs()
    ensures { ExchangesKeepLogs }
{}

/// Exchanging names that don't stand in a formula leaves its truth as it is.
pub fn exchanges_keep_truth()
    ensures { ExchangesKeepTruth }
{}

/// Exchanging names that don't stand in a system turns each of its solutions into one.
pub fn exchanges_keep_solutions()
    ensures { ExchangesKeepSolutions }
{}

/// Where pairs of names are one to one, exchanges lead the first of each to its second.
pub fn exchanges_lead()
    ensures { ExchangesLead }
{}
