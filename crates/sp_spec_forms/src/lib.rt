// The forms of rules, their variants: what they are, and when a left side of an equation matches a term.
// Below stands the meaning of theories (sp_spec); above stand what proofs are made in (sp_spec_system), the laws of forms (sp_law_forms), and forms in
// memory (sp_fact, sp_variant).
// It carries no promise of its own: it holds definitions that a reader must believe, each with its public source. They are in specs/, one subject a
// file: Narrowing, Numbering, Alike, Reducible, Forms.
#![tactic(auto)]
