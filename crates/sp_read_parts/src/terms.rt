ghost use Rattle.sp_spec_text.specs.Signs as signs;
ghost use Rattle.sp_lex.specs.Views.{sign_of};
ghost use Rattle.std.specs.Prelude.{◌≡◌, [], ◌∷◌, MatchOption, IfSome, IfOk, OnOk, map, ◌++◌, ◌+◌, ◌≤◌, ◌<◌, length};
ghost use Rattle.sp_spec.specs.Term.{var, app, none, more};
ghost use Rattle.sp_spec.specs.Term as spec;
ghost use Rattle.sp_spec_text.specs.Lists.{NoReading, AreParts};
ghost use Rattle.sp_spec_text.specs.Token.{word, sign};
ghost use Rattle.sp_spec_text.specs.Names.{IsName};
ghost use Rattle.sp_spec.specs.Formula.{Written};
ghost use Rattle.sp_read_parts.specs.Parts.{IsNameFirst, IsSort, IsVariable, IsTerm, IsTuple, AreTermsTo};
ghost use Rattle.sp_read_parts.specs.Views as view;
ghost use Rattle.sp_read_parts.specs.Views.{seen_from};

use crate::cursor::{after, quoted, split, word};
use crate::words::{is_reserved, mark_at, mark_of};
use crate::written::{Mark, WrittenTerm, WrittenVariable};
use sp_lex::{Lexeme, Sign, Token};
use sp_term::term::{Name, Term, nesting_over};
use std::alloc::{AllocError, Global};
use std::rc::Rc;

/// A name, and the tokens behind it.
#[tactic(auto, using(crate::proofs::Steps::names))]
pub fn name<'a>(tokens: &[Token<'a>], at: usize) -> Option<(&'a str, usize)>
    ensures value { MatchOption result (NoReading IsNameFirst (seen_from tokens.now at)) (λ x. IsNameFirst (seen_from tokens.now at) x.0.now (seen_from tokens.now x.1)) }
    ensures further { IfSome result (λ x. (at < x.1) × (x.1 ≤ length tokens.now)) }
{
    let (found, rest) = word(tokens, at)?;
    if is_reserved(found) {
        None
    } else {
        Some((found, rest))
    }
}

/// The word of a sort, and the tokens behind it.
#[tactic(auto, using(crate::proofs::Steps::sorts))]
pub fn sort<'a>(tokens: &[Token<'a>], at: usize) -> Option<(Mark, usize)>
    ensures value { MatchOption result (NoReading IsSort (seen_from tokens.now at)) (λ x. IsSort (seen_from tokens.now at) (view.mark x.0) (seen_from tokens.now x.1)) }
    ensures further { IfSome result (λ x. (at < x.1) × (x.1 ≤ length tokens.now)) }
{
    let (found, rest) = word(tokens, at)?;
    let mark = mark_of(found)?;
    Some((mark, rest))
}

/// A variable, and the tokens behind it.
#[tactic(auto, using(crate::proofs::Steps::variables))]
pub fn variable<'a>(tokens: &[Token<'a>], at: usize) -> Option<(WrittenVariable<'a>, usize)>
    ensures value { MatchOption result (NoReading IsVariable (seen_from tokens.now at)) (λ x. IsVariable (seen_from tokens.now at) (view.variable x.0) (seen_from tokens.now x.1)) }
    ensures further { IfSome result (λ x. (at < x.1) × (x.1 ≤ length tokens.now)) }
{
    let (first, behind) = split(tokens, at)?;
    match first {
        Lexeme::Sign(sign) => {
            let mark = mark_at(sign)?;
            let (name, rest) = name(tokens, behind)?;
            Some((WrittenVariable { name, mark }, rest))
        }
        Lexeme::Word(_) => {
            let (name, rest) = name(tokens, at)?;
            let Some(colon) = after(Sign::Colon, tokens, rest) else {
                return Some((
                    WrittenVariable {
                        name,
                        mark: Mark::Bare,
                    },
                    rest,
                ));
            };
            let (mark, rest) = sort(tokens, colon)?;
            Some((WrittenVariable { name, mark }, rest))
        }
        Lexeme::Constant(_) => None,
        Lexeme::Solve(_) => None,
        Lexeme::Wide(_) => None,
        Lexeme::Block => None,
    }
}

/// The deepest nesting of a token.
pub const LIMIT: u32 = 128;

/// One deeper, where something may nest so deep.
fn deeper(nesting: u32) -> Option<u32>
    ensures { MatchOption result (LIMIT ≤ nesting) (λ n. (nesting < LIMIT) × (n ≡ nesting + 1)) }
{
    if nesting >= LIMIT {
        None
    } else {
        Some(nesting + 1)
    }
}

/// The term that is this variable.
fn leaf<'a>(found: WrittenVariable<'a>) -> WrittenTerm<'a>
    ensures { view.term result ≡ var (view.variable found.entry) }
{
    Term::Var(found)
}

/// A term that is a variable alone, and the place behind it.
fn lone<'a>(tokens: &[Token<'a>], at: usize) -> Option<(WrittenTerm<'a>, usize)>
    ensures value { MatchOption result (NoReading IsVariable (seen_from tokens.now at)) (λ x. (v : Written) × IsVariable (seen_from tokens.now at) v (seen_from tokens.now x.1) × (view.term x.0 ≡ var v)) }
    ensures further { IfSome result (λ x. (at < x.1) × (x.1 ≤ length tokens.now)) }
{
    let (found, rest) = variable(tokens, at)?;
    let made = leaf(found);
    Some((made, rest))
}

/// The public name with this text.
fn constant<'a>(alloc: Global, text: &str) -> Result<WrittenTerm<'a>, AllocError>
    ensures { IfOk result (λ t. view.term t ≡ spec.constant text.now) }
{
    let name = Name::new(alloc, text)?;
    Ok(Term::Constant(name))
}

/// The symbol over these arguments.
fn application<'a>(
    alloc: Global,
    symbol: &str,
    args: Vec<WrittenTerm<'a>>,
) -> Result<WrittenTerm<'a>, AllocError>
    ensures { IfOk result (λ t. view.term t ≡ app symbol.now (view.terms args.entry.items)) }
{
    let name = Name::new(alloc, symbol)?;
    let nesting = nesting_over(&args)?;
    let shared = Rc::new(alloc, args)?;
    Ok(Term::App(name, shared, nesting))
}

/// The symbol over two arguments.
fn over_two<'a>(
    alloc: Global,
    symbol: &str,
    first: WrittenTerm<'a>,
    second: WrittenTerm<'a>,
) -> Result<WrittenTerm<'a>, AllocError>
    ensures { IfOk result (λ t. view.term t ≡ app symbol.now (more (view.term first.entry) (more (view.term second.entry) none))) }
{
    let mut args = Vec::new(alloc);
    args.push(first)?;
    args.push(second)?;
    let made = application(alloc, symbol, args)?;
    Ok(made)
}

/// A term, and the place behind it.
///
/// # Errors
///
/// There is no memory.
#[cycle(terms)]
#[tactic(auto, using(crate::proofs::Nested::all_terms, crate::proofs::Nested::angled_terms))]
pub fn term<'a>(
    alloc: Global,
    nesting: u32,
    tokens: &[Token<'a>],
    at: usize,
) -> Result<Option<(WrittenTerm<'a>, usize)>, AllocError>
    requires { nesting ≤ LIMIT }
    ensures value { IfOk result (λ o. MatchOption o (NoReading (IsTerm nesting) (seen_from tokens.now at)) (λ x. IsTerm nesting (seen_from tokens.now at) (view.term x.0) (seen_from tokens.now x.1))) }
    ensures further { IfOk result (λ o. IfSome o (λ x. (at < x.1) × (x.1 ≤ length tokens.now))) }
{
    if let Some((text, rest)) = quoted(tokens, at) {
        let made = constant(alloc, text)?;
        return Ok(Some((made, rest)));
    }
    if let Some(inside) = after(Sign::Open, tokens, at) {
        return bracketed(alloc, nesting, tokens, inside);
    }
    if let Some(inside) = after(Sign::Less, tokens, at) {
        let Some(within) = deeper(nesting) else {
            return Ok(None);
        };
        return tuple(alloc, Sign::Greater, within, tokens, inside);
    }
    let Some((symbol, behind)) = name(tokens, at) else {
        return Ok(lone(tokens, at));
    };
    if let Some(inside) = after(Sign::Open, tokens, behind) {
        return applied(alloc, symbol, nesting, tokens, inside);
    }
    if let Some(inside) = after(Sign::OpenBrace, tokens, behind) {
        return braced(alloc, symbol, nesting, tokens, inside);
    }
    Ok(lone(tokens, at))
}

/// A term behind its bracket, and the place behind the bracket that closes it.
#[cycle(terms)]
#[tactic(auto, using(crate::proofs::Nested::bracketed_terms))]
fn bracketed<'a>(
    alloc: Global,
    nesting: u32,
    tokens: &[Token<'a>],
    at: usize,
) -> Result<Option<(WrittenTerm<'a>, usize)>, AllocError>
    requires { nesting ≤ LIMIT }
    ensures value { IfOk result (λ o. MatchOption o (NoReading (IsTerm nesting) (sign signs.Open ∷ seen_from tokens.now at)) (λ x. IsTerm nesting (sign signs.Open ∷ seen_from tokens.now at) (view.term x.0) (seen_from tokens.now x.1))) }
    ensures further { IfOk result (λ o. IfSome o (λ x. (at < x.1) × (x.1 ≤ length tokens.now))) }
{
    let Some(within) = deeper(nesting) else {
        return Ok(None);
    };
    let Some((found, ahead)) = term(alloc, within, tokens, at)? else {
        return Ok(None);
    };
    let Some(rest) = after(Sign::Close, tokens, ahead) else {
        return Ok(None);
    };
    Ok(Some((found, rest)))
}

/// A symbol's arguments behind its bracket, and the place behind the bracket that closes them.
#[cycle(terms)]
#[tactic(auto, using(crate::proofs::Nested::applied_terms, crate::proofs::Nested::term_lists))]
fn applied<'a>(
    alloc: Global,
    symbol: &str,
    nesting: u32,
    tokens: &[Token<'a>],
    at: usize,
) -> Result<Option<(WrittenTerm<'a>, usize)>, AllocError>
    requires nested { nesting ≤ LIMIT }
    requires called { IsName symbol.now }
    ensures value { IfOk result (λ o. MatchOption o (NoReading (IsTerm nesting) (word symbol.now ∷ sign signs.Open ∷ seen_from tokens.now at)) (λ x. IsTerm nesting (word symbol.now ∷ sign signs.Open ∷ seen_from tokens.now at) (view.term x.0) (seen_from tokens.now x.1))) }
    ensures further { IfOk result (λ o. IfSome o (λ x. (at < x.1) × (x.1 ≤ length tokens.now))) }
{
    let Some(within) = deeper(nesting) else {
        return Ok(None);
    };
    if let Some(rest) = after(Sign::Close, tokens, at) {
        let made = application(alloc, symbol, Vec::new(alloc))?;
        return Ok(Some((made, rest)));
    }
    let Some((args, rest)) = terms(alloc, within, tokens, at)? else {
        return Ok(None);
    };
    let made = application(alloc, symbol, args)?;
    Ok(Some((made, rest)))
}

/// A tuple behind a symbol's brace and the term behind it, the symbol's two arguments, and the place behind them.
#[cycle(terms)]
#[tactic(auto, using(crate::proofs::Nested::braced_terms))]
fn braced<'a>(
    alloc: Global,
    symbol: &str,
    nesting: u32,
    tokens: &[Token<'a>],
    at: usize,
) -> Result<Option<(WrittenTerm<'a>, usize)>, AllocError>
    requires nested { nesting ≤ LIMIT }
    requires called { IsName symbol.now }
    ensures value { IfOk result (λ o. MatchOption o (NoReading (IsTerm nesting) (word symbol.now ∷ sign signs.OpenBrace ∷ seen_from tokens.now at)) (λ x. IsTerm nesting (word symbol.now ∷ sign signs.OpenBrace ∷ seen_from tokens.now at) (view.term x.0) (seen_from tokens.now x.1))) }
    ensures further { IfOk result (λ o. IfSome o (λ x. (at < x.1) × (x.1 ≤ length tokens.now))) }
{
    let Some(within) = deeper(nesting) else {
        return Ok(None);
    };
    let Some((first, ahead)) = tuple(alloc, Sign::CloseBrace, within, tokens, at)? else {
        return Ok(None);
    };
    let Some((second, rest)) = term(alloc, within, tokens, ahead)? else {
        return Ok(None);
    };
    let made = over_two(alloc, symbol, first, second)?;
    Ok(Some((made, rest)))
}

/// A tuple up to the closing sign, and the place behind it: pairs within pairs.
#[cycle(terms)]
#[tactic(auto, using(crate::proofs::Nested::tuples))]
fn tuple<'a>(
    alloc: Global,
    close: Sign,
    nesting: u32,
    tokens: &[Token<'a>],
    at: usize,
) -> Result<Option<(WrittenTerm<'a>, usize)>, AllocError>
    requires nested { nesting ≤ LIMIT }
    requires closing { signs.Comma ≡ sign_of close → ⊥ }
    ensures value { IfOk result (λ o. MatchOption o (NoReading (IsTuple nesting (sign_of close)) (seen_from tokens.now at)) (λ x. IsTuple nesting (sign_of close) (seen_from tokens.now at) (view.term x.0) (seen_from tokens.now x.1))) }
    ensures further { IfOk result (λ o. IfSome o (λ x. (at < x.1) × (x.1 ≤ length tokens.now))) }
{
    let Some((first, ahead)) = term(alloc, nesting, tokens, at)? else {
        return Ok(None);
    };
    if let Some(rest) = after(close, tokens, ahead) {
        return Ok(Some((first, rest)));
    }
    let Some(next) = after(Sign::Comma, tokens, ahead) else {
        return Ok(None);
    };
    let Some(within) = deeper(nesting) else {
        return Ok(None);
    };
    let Some((second, rest)) = tuple(alloc, close, within, tokens, next)? else {
        return Ok(None);
    };
    let made = over_two(alloc, "pair", first, second)?;
    Ok(Some((made, rest)))
}

/// Puts a term at the end.
fn push_term<'a>(found: &mut Vec<WrittenTerm<'a>>, next: WrittenTerm<'a>) -> Result<(), AllocError>
    ensures { OnOk result (map view.term found.new.items ≡ map view.term found.old.items ++ view.term next.entry ∷ []) }
{
    found.push(next)?;
    Ok(())
}

/// Terms with commas, up to a closing bracket, and the place behind it.
#[cycle(terms)]
#[tactic(auto, using(crate::proofs::Loops::loops))]
fn terms<'a>(
    alloc: Global,
    nesting: u32,
    tokens: &[Token<'a>],
    at: usize,
) -> Result<Option<(Vec<WrittenTerm<'a>>, usize)>, AllocError>
    requires { nesting ≤ LIMIT }
    ensures value { IfOk result (λ o. MatchOption o (NoReading (AreParts (IsTerm nesting) signs.Comma signs.Close) (seen_from tokens.now at)) (λ x. AreParts (IsTerm nesting) signs.Comma signs.Close (seen_from tokens.now at) (map view.term x.0.items) (seen_from tokens.now x.1))) }
    ensures further { IfOk result (λ o. IfSome o (λ x. (at < x.1) × (x.1 ≤ length tokens.now))) }
{
    let mut found = Vec::new(alloc);
    let mut rest = at;
    loop {
        let Some((next, ahead)) = term(alloc, nesting, tokens, rest)? else {
            return Ok(None);
        };
        push_term(&mut found, next)?;
        if let Some(end) = after(Sign::Close, tokens, ahead) {
            return Ok(Some((found, end)));
        }
        match after(Sign::Comma, tokens, ahead) {
            Some(more) => rest = more,
            None => return Ok(None),
        }
    }
}

/// Terms with commas, or none, up to a closing bracket, and the place behind it.
///
/// # Errors
///
/// There is no memory.
#[tactic(auto, using(crate::proofs::Nested::term_lists))]
pub fn term_list<'a>(
    alloc: Global,
    nesting: u32,
    tokens: &[Token<'a>],
    at: usize,
) -> Result<Option<(Vec<WrittenTerm<'a>>, usize)>, AllocError>
    requires { nesting ≤ LIMIT }
    ensures value { IfOk result (λ o. MatchOption o (NoReading (AreTermsTo nesting) (seen_from tokens.now at)) (λ x. AreTermsTo nesting (seen_from tokens.now at) (view.terms x.0.items) (seen_from tokens.now x.1))) }
    ensures further { IfOk result (λ o. IfSome o (λ x. (at < x.1) × (x.1 ≤ length tokens.now))) }
{
    if let Some(rest) = after(Sign::Close, tokens, at) {
        return Ok(Some((Vec::new(alloc), rest)));
    }
    let Some((found, rest)) = terms(alloc, nesting, tokens, at)? else {
        return Ok(None);
    };
    Ok(Some((found, rest)))
}
