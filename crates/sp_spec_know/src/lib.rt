// The rows and moves on what is learnt and sent: what is learnt before what, in which way, by which chain; and fresh names, made before they are learnt.
// Below stand systems (sp_spec_system) and the rows and moves on events and links (sp_spec_graph); above stand their covering (sp_law_know), the
// joins of all rows and moves (sp_spec_proof), and their code (sp_rows_graph, sp_moves_know).
// It carries no promise of its own: it holds definitions that a reader must believe, each with its public source. A file of specs/ has one
// row or move: its place, the system or the cases that it gives, and its contradiction.
#![tactic(auto)]
