// That the table of awaited parts (sp_await) has what the grammar has, and that from each list of parts that comes up a text can be ended.
// Below stand sp_await and the definitions of the grammar (sp_spec_text); above, the place where a text is refused (sp_place).
// What tokens parts consist of is said in specs/Language.antt, by the table alone.
// proofs/Sound*.antt lead from the table to the grammar, proofs/Complete*.antt back, proofs/Live.antt to an end of a text.
// The functions do nothing when they run: their contracts are the theorems.
#![tactic(auto)]

ghost use Rattle.sp_law_await.specs.Laws.{PartsCanEnd, TableIsGrammar};

/// What the parts of a theory consist of, by the table, are the theories of the grammar.
pub fn table_is_grammar()
    ensures { TableIsGrammar }
{}

/// Each good list of parts is had by some tokens.
pub fn parts_can_end()
    ensures { PartsCanEnd }
{}
