// Laws of systems: what keeps a solution, the unifier as the rows use it, and the order of times.
// Below stand systems (sp_spec_system) and the laws of unification (sp_law_unify); above stand the covering of rows and moves
// (sp_law_formula, sp_law_graph, sp_law_know) and systems in memory (sp_system).
// Carried here: the unifier gives up no valuation that makes the pairs the same, and brings in no other variables; a time is told to be
// before another exactly where a path of order pairs leads there. What covering asks of a theory and owes to a proof stands in specs/.
#![tactic(auto)]

ghost use Rattle.sp_law_system.specs.Laws.{UnifierIsRight, BeforeIsAPath};

/// Each valuation that makes the pairs the same keeps its values under the unifier, and there is a unifier where there is one such.
pub fn unifier_is_right()
    ensures { UnifierIsRight }
{}

/// A time is told to be before another exactly where a path of order pairs leads there, and so are cycles of the order.
pub fn before_is_a_path()
    ensures { BeforeIsAPath }
{}
