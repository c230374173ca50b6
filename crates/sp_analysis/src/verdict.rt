use sp_check::Clause;

/// What is said of a lemma.
#[derive(Clone, Copy, Debug, PartialEq, Eq)]
pub enum Verdict {
    /// it is one on all traces, and holds in every execution, or one on some trace, and an execution was found that satisfies it
    Verified,
    /// it is one on some trace, and holds in no execution, or one on all traces, and an execution was found that breaks it
    Falsified,
    /// some leaf of its proof is open
    Incomplete,
    /// its proof is rejected at this step, by this clause
    Rejected(u64, Clause),
}
