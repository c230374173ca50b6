// Proofs: contradictions, simplification, the cases of each move, proof trees, and how the search grows one.
// Below stand systems (sp_spec_system) and the rows and moves (sp_spec_formula, sp_spec_graph, sp_spec_know); above stand what trees
// show (sp_law_tree) and all code of proofs.
// It carries no promise of its own: it holds definitions that a reader must believe, each with its public source. They are in specs/: Rows,
// ButFinish and Cases join what the families have, a line for each row and move; Kinds, Finish and Choice say which moves are asked in which order; then
// Root, Tree and Growth. In proofs/ stands of them what needs no covering: a chosen move is an instance (Chosen), a proof that is to begin with induction
// does so (First), what is grown is accepted and within its budget (Growing), and when a tree has a log (TreeLogs).
#![tactic(auto)]
