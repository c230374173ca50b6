// Values that copies share, and lists of them that are copied first where they are shared and written.
// Below stands nothing; above stand formulas and systems in memory (sp_formula, sp_system), which hold their lists so. A handle
// is seen as the value that it shares, and a list by its elements. Carried here: a copy is the same value, and what is written
// through one handle is what that handle then has. That the others keep theirs is in no clause: no handle can be written whose
// value another one shares, and the tests show it.
#![tactic(auto)]

pub mod copies;
pub mod list;
pub mod shared;
