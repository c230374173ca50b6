// The rows and moves on the graph of events and links: fresh names, linear sources, and premises.
// Below stand systems (sp_spec_system); above stand the rows and moves on what is learnt and sent (sp_spec_know), the covering of these here
// (sp_law_graph), the joins of all rows and moves (sp_spec_proof), and their code (sp_rows_graph, sp_moves_graph).
// It carries no promise of its own: it holds definitions that a reader must believe, each with its public source. A file of specs/ has one
// row or move: its place, the system or the cases that it gives, and its contradiction.
#![tactic(auto)]
