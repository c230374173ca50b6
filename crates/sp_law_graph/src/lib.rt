// Covering of the rows and moves on the graph of events and links: each in a file of proofs/ by its name.
// Below stand their definitions (sp_spec_graph), the laws of logs (sp_law_log), of systems (sp_law_system) and of rule forms (sp_law_forms), and the covering on
// formulas (sp_law_formula); above stand the covering on what is learnt and sent (sp_law_know) and the joins (sp_law_cover).
// It carries no promise of its own: what it shows is named, with all other rows and moves, by the law of sp_law_cover.
#![tactic(auto)]
