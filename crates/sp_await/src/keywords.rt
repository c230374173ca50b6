/// An item of a text with a name.
#[derive(Clone, Copy)]
pub enum NamedItem {
    Rule,
    /// `restriction` or `axiom`.
    Restriction,
    Lemma,
}

/// An item of a text that is a list, with a colon directly behind its word.
#[derive(Clone, Copy)]
pub enum ListItem {
    Builtins,
    Functions,
    Equations,
    Heuristic,
}

/// What a word may begin; each may also be the word of a block of text.
#[derive(Clone, Copy)]
pub enum Keyword {
    Names(NamedItem),
    Lists(ListItem),
    Neither,
}

/// The traces that a lemma speaks of, where it says so.
#[derive(Clone, Copy)]
pub enum TraceKind {
    /// `all-traces`
    All,
    /// `exists-trace`
    Exists,
}
