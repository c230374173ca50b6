// No solution is lost: contradictions, rows and moves, one line for each.
// Below stand the joins of rows and moves (sp_spec_proof), the laws of rule forms (sp_law_forms), the covering of each (sp_law_formula, sp_law_graph,
// sp_law_know, sp_law_progress) and the solutions of decided systems (sp_law_decided, sp_law_finish); above stands the tree theorem (sp_law_tree).
// It carries the promise that no solution is lost: each row covers in its turn, each move covers with its cases simplified (induction only below, since it
// goes over to what a log was before; `finish` only over admitted logs), and a contradiction has no solution. All is said of the definitions.
#![tactic(auto)]

ghost use Rattle.sp_law_cover.specs.Laws.{NothingIsLost};

/// No solution of a system is lost by a row, a contradiction or a move.
pub fn nothing_is_lost()
    ensures { NothingIsLost }
{}
