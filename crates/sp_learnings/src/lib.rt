// What is learnt in a system, and where the premises of its events come from.
// Below stand what these are (sp_spec_graph, sp_spec_know), systems in memory (sp_system), and which symbols are public (sp_destruct); above stand the rows on the
// graph of events (sp_rows_graph) and the moves on a premise or on what is learnt (sp_moves_graph, sp_moves_know), which share it.
// Each call is exact: it tells, or makes of a system, what the definition does.
// Carried here: the promise that learning and its ways, as rows and moves take them, are the written ones.
#![tactic(auto)]

pub mod learning;
pub mod premise;
pub mod settling;
