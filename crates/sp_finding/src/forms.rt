// What a symbol is looked up by.

/// A name, and how many arguments it has.
#[derive(Clone, Copy, PartialEq, Eq, Hash)]
pub struct SymbolForm<'s> {
    pub name: &'s str,
    pub arity: usize,
}
