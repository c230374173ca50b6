// Covering of the moves that decide what a system leaves open: `compare`, `same`, `top` and `more`, each in a file of proofs/ by its name.
// Below stand their definitions (sp_spec_formula, sp_spec_graph), the laws of systems (sp_law_system), the covering of the other moves (sp_law_formula,
// sp_law_graph, sp_law_know), and that sources and chains came earlier (sp_law_decided).
// Above stand the joins (sp_law_cover).
// It carries no promise of its own: the joins cite it.
#![tactic(auto)]
