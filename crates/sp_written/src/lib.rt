// Theories in memory as a text writes them: what it declares, rules and lemmas in their order, and the proofs that stand below lemmas.
// Below stand lists of nodes (sp_spec_nodes), what theories are (sp_spec), what texts write (sp_spec_text), and facts and formulas as they are
// read (sp_read_parts); the readers (sp_read_proof, sp_read_theory), the report (sp_wf) and the analysis (sp_analysis) stand above.
// What is written is said in sp_spec_text (specs/Written.antt, specs/Spans.antt), what the values here stand for in specs/Views.antt.
// They promise nothing of their own.
#![tactic(auto)]

mod proof;
mod theory;

pub use proof::{Method, WrittenProof, WrittenStep};
pub use theory::{
    Attribute, BoundRule, Item, ReadTheory, Span, TraceKind, WrittenEquation, WrittenLemma,
    WrittenRestriction,
};
