// The meaning of theories: terms, equations, executions, traces, formulas, lemmas, and what a printed proof speaks of.
// Nothing stands below it; every crate that proves something of theories stands above.
// It carries no promise of its own: it holds the definitions that a reader must believe, each with its public source.
// They are in specs/, one subject a file; proofs/ has lemmas on lists that many crates cite.
#![tactic(auto)]
