// The text of a theory with what its names stand for: the values that `let` binds, then symbols in the place of the names that are such.
// Below stand what texts declare (sp_spec_text), theories in memory (sp_written) and their symbols (sp_declared); above stand the findings on a theory (sp_wf)
// and what it poses (sp_pose), which see no binding and no name that is a symbol.
// Carried here: the promise that rules, restrictions, lemmas and equations are taken as the text means them, exactly as specs/Declared.antt and
// specs/Bindings.antt of sp_spec_text say. src/bindings.rt has what rules bind, src/names.rt names, src/formulas.rt formulas, src/text.rt the whole.
#![tactic(auto)]

mod bindings;
mod formulas;
mod names;
mod text;

pub use text::resolved;
