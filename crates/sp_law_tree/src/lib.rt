// What proof trees show. Below stand proof trees and growth (sp_spec_proof), the covering of rows and moves (sp_law_cover), and the laws of
// equality, truth, guarded forms, deciding and the adversary; above it stands the answer of the command (sp_analysis).
// It carries three promises: where an accepted tree is finished that begins from a lemma's negation, from the theory's restrictions and from
// what is taken, the lemma holds in every execution of the theory that meets the restrictions, steps of the adversary included; where one from
// the lemma itself is, no such execution satisfies it; and what is grown is an accepted tree within its budget of steps. A lemma that was shown
// in all logs may be taken. All is said of the definitions.
#![tactic(auto)]

ghost use Rattle.sp_law_tree.specs.Laws.{AcceptedTreesShow, EndsAreWellMade, RootsAreSolved, TreesShowLogs, ShownIsTaken, RightTheoriesSuit, LemmasAreShown, NamesStand, GrowthIsAccepted};

/// The root of an accepted tree that is finished has no solution; where the search ends at a leaf, the tree has a log.
pub fn accepted_trees_show()
    ensures { AcceptedTreesShow }
{}

/// The search ends, if it does, at a system that is well made.
pub fn ends_are_well_made()
    ensures { EndsAreWellMade }
{}

/// The system in which a proof begins is well made, and each admitted log solves it.
pub fn roots_are_solved()
    ensures { RootsAreSolved }
{}

/// What finished trees show of learning logs.
pub fn trees_show_logs()
    ensures { TreesShowLogs }
{}

/// What was shown in all logs may be taken.
pub fn shown_is_taken()
    ensures { ShownIsTaken }
{}

/// What is right of a theory is all that covering asks of it.
pub fn right_theories_suit()
    ensures { RightTheoriesSuit }
{}

/// What finished trees show of lemmas.
pub fn lemmas_are_shown()
    ensures { LemmasAreShown }
{}

/// The public names of a text are all that stand in its rules, restrictions and lemmas.
pub fn names_stand()
    ensures { NamesStand }
{}

/// What is grown is an accepted tree, within its budget of steps.
pub fn growth_is_accepted()
    ensures { GrowthIsAccepted }
{}
