// The rows and moves on formulas: conjunctions, quantifiers, equalities, inequalities, order, actions and disjunctions.
// Below stand systems (sp_spec_system); above stand their covering (sp_law_formula), the joins of all rows and moves (sp_spec_proof), and
// their code (sp_rows_formula, sp_moves_formula).
// It carries no promise of its own: it holds definitions that a reader must believe, each with its public source. A file of specs/ has one
// row or move: its place, the system or the cases that it gives, and its contradiction. In proofs/ stands of them what needs no covering: the test of
// a proof's first system tells whether a system is that one (Roots).
#![tactic(auto)]
