// Texts: which tokens a text has, and which theories, lemmas and proofs they spell.
// Below stands the meaning of theories (sp_spec); above stand printed texts (sp_spec_printed), the lexer and the readers.
// It carries no promise of its own: it holds the definitions that a reader must believe of what is read, each with its public source. They are in
// specs/, one subject a file: Token, Lex, Signs, Bytes, Plain, Ends and Behind for tokens; Numerals and Blanks for digits and lines; Names, Attributes, Lists, Shapes,
// Formulas, Proofs and Theories for the grammar; Bindings, Written, Declared, Spans and Texts for what a text says. What several crates use
// of them is proved once, in proofs/.
#![tactic(auto)]
