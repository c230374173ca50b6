// What a token does to the parts of variables, terms, facts and formulas.
// Below stand sp_await (the parts, their table and the tests on tokens), sp_lex and sp_spec_text; above, sp_place.
// One function for each part, as in sp_await's specs/Table.antt.
// Carried here: that what each function answers is what the table says.
#![tactic(auto)]

mod formulas;
mod terms;

ghost use Rattle.std.specs.Prelude.{◌≡◌, true};
ghost use Rattle.sp_lex.specs.Views.{lexeme_of};
ghost use Rattle.sp_await.specs.Stack.{Fits};
ghost use Rattle.sp_await.specs.Table as spec;
ghost use Rattle.sp_await.specs.Views.{formula_part_of, move_of, term_part_of};

use sp_await::awaited::{FormulaPart, TermPart};
use sp_await::moves::Move;
use sp_lex::Lexeme;

/// What the token does to a part of a term or of a fact.
pub fn next_in_term<'a>(part: TermPart, x: Lexeme<'a>) -> Move
    requires { Fits (term_part_of part) true }
    ensures { move_of result ≡ spec.next (term_part_of part) (lexeme_of x.entry) }
{
    match part {
        TermPart::Sorted => terms::sorted(x),
        TermPart::Variable => terms::variable(x),
        TermPart::Term(n) => terms::term(n, x),
        TermPart::Applied(n) => terms::applied(n, x),
        TermPart::Tuple(n, close) => terms::tuple(n, close),
        TermPart::MoreTuple(n, close) => terms::more_tuple(n, close, x),
        TermPart::Arguments(n) => terms::arguments(n, x),
        TermPart::MoreArguments(n) => terms::more_arguments(n, x),
        TermPart::Fact(n) => terms::fact(n, x),
        TermPart::Opened(n) => terms::opened(n, x),
        TermPart::Annotations => terms::annotations(x),
        TermPart::MoreAnnotations => terms::more_annotations(x),
        TermPart::Binders => terms::binders(x),
    }
}

/// What the token does to a part of a formula.
pub fn next_in_formula<'a>(part: FormulaPart, x: Lexeme<'a>) -> Move
    requires { Fits (formula_part_of part) true }
    ensures { move_of result ≡ spec.next (formula_part_of part) (lexeme_of x.entry) }
{
    match part {
        FormulaPart::Negation(n, k) => formulas::negation(n, k, x),
        FormulaPart::Unit(n, k) => formulas::unit(n, k, x),
        FormulaPart::Side(n, k) => formulas::side(n, k, x),
        FormulaPart::Order(n, k) => formulas::order(n, k, x),
        FormulaPart::Bare(n, k) => formulas::bare(n, k, x),
        FormulaPart::Named(n, k) => formulas::named(n, k, x),
        FormulaPart::Shown(n, k) => formulas::shown(n, k, x),
        FormulaPart::Truth(n, k) => formulas::truth(n, k, x),
        FormulaPart::Both(n, k) => formulas::both(n, k, x),
        FormulaPart::Closing(n, k) => formulas::closing(n, k),
        FormulaPart::More(n) => formulas::more(n, x),
        FormulaPart::Twice(n) => formulas::twice(n, x),
        FormulaPart::Quoted => formulas::quoted(),
    }
}
