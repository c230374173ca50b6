// Covering of the rows and moves on what is learnt and sent: each in a file of proofs/ by its name.
// Below stand their definitions (sp_spec_know), the laws of logs (sp_law_log), of systems (sp_law_system) and of rule forms (sp_law_forms), and the covering on
// formulas (sp_law_formula) and on events and links (sp_law_graph); above stand the joins (sp_law_cover).
// It carries no promise of its own: what it shows is named, with all other rows and moves, by the law of sp_law_cover.
#![tactic(auto)]
