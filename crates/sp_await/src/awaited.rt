use crate::keywords::{Keyword, ListItem, NamedItem, TraceKind};
use sp_lex::Sign;

/// A part that is one token.
#[derive(Clone, Copy)]
pub enum OneToken {
    /// This sign.
    Exactly(Sign),
    Name,
    /// The word of a sort.
    Sort,
    /// The name of a fact.
    FactName,
    /// The word `begin`.
    Begin,
    /// The word `modulo`.
    Modulo,
    /// The word of a number.
    Number,
    /// The word of an attribute of a function.
    Attribute,
    /// An annotation of a fact.
    Annotation,
    /// The word `traces` or `trace`.
    Traces(TraceKind),
    /// The word `case`.
    Case,
    /// The method behind `by`.
    Method,
}

/// A part of a variable, of a term or of a fact.
#[derive(Clone, Copy)]
pub enum TermPart {
    /// Behind the name of a variable: `:` and a sort, or nothing.
    Sorted,
    Variable,
    Term(u32),
    /// Behind a name in a term.
    Applied(u32),
    /// Terms up to this sign.
    Tuple(u32, Sign),
    /// Behind a term of such a tuple.
    MoreTuple(u32, Sign),
    /// Behind the bracket of a fact or of an application.
    Arguments(u32),
    /// Behind such an argument.
    MoreArguments(u32),
    Fact(u32),
    /// The arguments of a fact, from the bracket on, and its annotations.
    Opened(u32),
    /// The annotations of a fact, or none.
    Annotations,
    /// Behind an annotation.
    MoreAnnotations,
    /// Behind a variable of a quantifier.
    Binders,
}

/// A part of a formula. Where there are two numbers, they are the nesting of a unit and the brackets behind its beginning that hold
/// nothing but what was read since, so that they may hold a term or a formula.
#[derive(Clone, Copy)]
pub enum FormulaPart {
    /// A unit, or `not` and a unit.
    Negation(u32, u32),
    Unit(u32, u32),
    /// Behind a term.
    Side(u32, u32),
    /// Behind a variable.
    Order(u32, u32),
    /// Behind a name that stands alone.
    Bare(u32, u32),
    /// Behind a name that may name a fact.
    Named(u32, u32),
    /// Behind what may be a fact or a term.
    Shown(u32, u32),
    /// Behind `T` or `F`.
    Truth(u32, u32),
    /// Behind what is a term and a unit.
    Both(u32, u32),
    /// Behind a unit, up to the last of the brackets.
    Closing(u32, u32),
    /// Behind a unit, up to the end of the implication.
    More(u32),
    /// Behind an implication.
    Twice(u32),
    /// A formula behind its opening quote, and its closing quote.
    Quoted,
}

/// A part of a theory, or of an item with a name.
#[derive(Clone, Copy)]
pub enum ItemPart {
    Theory,
    /// Items, and the word `end`.
    Items,
    /// Behind the first word of an item: its remainder, items, and the word `end`.
    Item(Keyword),
    /// Behind the name of an item.
    Headed(NamedItem),
    /// Behind the colon of such an item.
    Body(NamedItem),
    /// Any tokens up to the bracket `]` that closes.
    Balanced,
    /// Bindings, or none.
    Let,
    /// Behind a binding: others, and the word `in`.
    MoreBindings,
    /// An attribute of a lemma.
    LemmaAttribute,
    /// Behind the word of an attribute: `=` and a name, or nothing.
    AttributeValue,
    /// Behind an attribute of a lemma.
    MoreLemmaAttributes,
    /// Facts in brackets.
    FactList,
    /// Facts up to this sign.
    Facts(Sign),
    /// Behind a fact of such a list.
    MoreFacts(Sign),
    Arrow,
    /// The kind of a lemma, and the quote behind it.
    Kind,
}

/// A part of an item that is a list.
#[derive(Clone, Copy)]
pub enum ListPart {
    /// Behind the colon of a list: its remainder, items, and the word `end`.
    Listing(ListItem),
    /// Behind a name of builtins: others, items, and the word `end`.
    MoreBuiltins,
    /// The declaration of a function.
    Function,
    /// The attributes of a function, or none.
    Attributes,
    /// Behind an attribute.
    MoreAttributes,
    /// Behind the declaration of a function: others, items, and the word `end`.
    MoreFunctions,
    /// Behind an equation: others, items, and the word `end`.
    MoreEquations,
}

/// A part of a heuristic, whose words end where an item begins.
#[derive(Clone, Copy)]
pub enum WordPart {
    /// Behind the first word: others, items, and the word `end`.
    SecondWord,
    /// Behind others, of which the last, or the one before it, may be the first word of an item.
    MoreWords(Keyword, Keyword),
    /// Behind such words and a colon, where the last word may begin a list, and the one before it an item with a name.
    Either(ListItem, NamedItem),
    /// Behind `all` or `exists` there, which begins the list or the kind of a lemma.
    Joined(ListItem, TraceKind),
    /// Behind a dash there, in a name of builtins or the kind of a lemma.
    JoinedTraces(TraceKind),
    /// Behind `traces` or `trace` there.
    JoinedQuote,
}

/// A part of a proof.
#[derive(Clone, Copy)]
pub enum ProofPart {
    /// Behind a lemma: its proof or none, items, and the word `end`.
    Below,
    /// Behind the word `SOLVED` there, which is a proof or the word of a block of text.
    BelowSolved,
    /// Behind the word `by` there.
    BelowBy,
    /// Behind the word of a method there.
    BelowMethod,
    Proof,
    /// Behind a method.
    Behind,
    /// Behind a case.
    Cases,
}

/// A part that a text still has to have at a place of it. The numbers are the nesting.
#[derive(Clone, Copy)]
pub enum Awaited {
    Token(OneToken),
    Term(TermPart),
    Formula(FormulaPart),
    Item(ItemPart),
    List(ListPart),
    Words(WordPart),
    Proof(ProofPart),
}
