// What a theory declares: its builtins, its symbols, its equations, the signature of all these; and its public names.
// Below stand what theories are and which names stand in them (sp_spec), what texts declare (sp_spec_text), texts each once (sp_lines), and theories in
// memory (sp_written); above stand what names stand for (sp_resolved), the report on a theory (sp_wf) and what it poses (sp_pose), and so the logs that
// are looked for, whose values are names that it doesn't have. Carried here: the promise that a theory is proved over the signature that its text says.
// Each call is exact against specs/Declared.antt of sp_spec_text and specs/Constants.antt of sp_spec; what the values here stand for is said in
// specs/View.antt and specs/Constants.antt.
#![tactic(auto)]

pub mod builtins;
pub mod equations;
pub mod names;
pub mod public_names;
pub mod signature;
pub mod symbols;
