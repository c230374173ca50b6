// Trees as lists of their nodes in preorder, which a program walks without recursion. Nothing of the repository stands below it; above it stand
// proofs as they are written (sp_written), as they are read (sp_check) and as they are grown (sp_search).
// It carries no promise: its definitions say which trees the lists of those crates stand for (specs/Preorder.antt), and proofs/Preorder.antt
// that they stand for as many as they should, and appended lists for the trees of each.
#![tactic(auto)]
