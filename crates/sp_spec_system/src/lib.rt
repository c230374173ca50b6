// Constraint systems: what they are, what solves one, and what it means that cases cover one; the moves of a proof and what it is made in.
// Below stands the meaning of theories (sp_spec); above stand the rows and moves on formulas (sp_spec_formula), on the graph (sp_spec_graph) and
// on what is learnt and sent (sp_spec_know), the laws of systems (sp_law_system), and systems in memory (sp_system).
// It carries no promise of its own: it holds definitions that a reader must believe, each with its public source. They are in specs/, one
// subject a file: System, Solutions, Numbered, Covering; Order; Equating and MakingOne; Formulas and Picked; Move, Words and Cases.
#![tactic(auto)]
