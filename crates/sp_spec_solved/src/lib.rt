// The log that a system suggests: the order of its events, names for the variables that are left, and the entries.
// Below stand systems (sp_spec_system); above stand what holds of it (sp_law_candidate), its code (sp_solved), and the covering of the move
// with which a proof ends.
// It carries no promise of its own: it holds definitions that a reader must believe, each with its public source. They are in specs/: Listing,
// Numeral, Naming, Candidate; proofs/ has that different numbers are written differently, and that code writes them so.
#![tactic(auto)]
