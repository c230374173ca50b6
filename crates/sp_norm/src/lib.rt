// Normal forms of ground terms, facts and steps modulo equations, and instances.
// Below stand ground terms in memory (sp_fact) and what normal forms are (sp_law_equal); above stand the replaying of steps (sp_exec),
// truth over a trace (sp_eval) and what is made of solutions. Each function is exact against its definition.
// Carried here: the promise that what is put in or rewritten in memory is what the definitions say, and that the tests of
// sorts and symbols tell what they should.
#![tactic(auto)]

pub mod instance;
pub mod normal;
pub mod over;
pub mod step;
