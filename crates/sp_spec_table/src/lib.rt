// How the source table is made beforehand, by the moves of a proof.
// Below stand the moves and their choice (sp_spec_proof), and of which messages the table has entries (sp_spec_sources).
// Above stands the law that its entries are right (sp_law_table); nothing makes a table yet.
// It carries no promise of its own: it holds definitions that a reader must believe, with their public source. They are in specs/Made: the leaves that are
// gone on with, the cases of an entry, the table, and the move that uses one with its cases simplified.
#![tactic(auto)]
