// Basic theories: terms without fresh names, of the signature's symbols, with destructors in actions and conclusions alone.
// Below stand the definitions (sp_spec), what is right of theories (sp_law_equal), and the laws of runs, guarded forms and constructor terms (sp_law_run,
// sp_law_guard, sp_law_decide); above stand what a text poses (sp_pose), which is a basic theory, and what finished trees show of such (sp_law_tree).
// Carried here: the promise that a text without findings has a right theory, on which covering and the adversary's laws rest.
// Nothing here runs: the public function is a law, and its one clause says it.
#![tactic(auto)]

ghost use Rattle.sp_law_basic.specs.Laws.{TextsAreRight};

/// A text without findings has a right theory.
pub fn texts_are_right()
    ensures { TextsAreRight }
{}
