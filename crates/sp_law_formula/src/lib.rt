// Covering of the rows and moves on formulas: each in a file of proofs/ by its name.
// Below stand their definitions (sp_spec_formula) and the laws of logs (sp_law_log) and of systems (sp_law_system); above stand the covering of the graph
// (sp_law_graph) and of what is learnt and sent (sp_law_know), and the joins (sp_law_cover).
// It carries no promise of its own: what it shows is named, with all other rows and moves, by the law of sp_law_cover.
#![tactic(auto)]
