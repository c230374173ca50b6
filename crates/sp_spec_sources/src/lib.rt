// The source table: of which messages it has an entry, and when an entry is a right one.
// Below stand systems, with what an entry begins from and how a case is put into a system (sp_spec_system); the move that uses the table is in sp_spec_know.
// Above stand the laws that no solution is lost (sp_law_sources), and how a table is made (sp_spec_table).
// It carries no promise of its own: it holds definitions that a reader must believe, each with its public source. They are in specs/: Heads, of what there are
// entries; Entries, what is asked of an entry, and of the lemmas that are taken.
#![tactic(auto)]
