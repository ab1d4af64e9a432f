//! Reading terms.

ghost use Rattle.std.specs.Prelude.{◌≡◌, ℕ, ◌∷◌, List, length, map, IfOk, IfErr, OnErr, IfSome, IfNone, IsTrue, true, ◌↔◌, []};
ghost use Rattle.akl_text.specs.declared.token.Kind.TheVariants.{OpenList};
ghost use Rattle.term_syntax.specs.Tree.{trees};
ghost use Rattle.term_syntax.specs.View.{tree, step, tail_view};
ghost use Rattle.akl_lexemes.specs.declared.lexeme.Lexeme.{Lexeme};
ghost use Rattle.term_syntax.specs.Grammar.{Expr, More, Operand, Primary, Arguments, ListEnd, Items};
ghost use Rattle.akl_lexemes.specs.Parsed.{Parsed, anywhere};
ghost use Rattle.term_syntax.specs.Ends.{ends_operand, ends_chain, ends_items};

use crate::level::{Level, operator};
use crate::source::{SourceStep, SourceTerm};
use akl_lexemes::{Fault, Lexeme, behind, front, skip};
use akl_terms::Text;
use akl_text::Kind;
use std::alloc::Global;

/// A sum or a product.
#[cycle(terms)]
pub fn expr(
    alloc: Global,
    level: Level,
    lexemes: &[Lexeme],
) -> Result<(SourceTerm, &[Lexeme]), Fault>
    ensures { Parsed (λ x. (tree x.0, x.1.now)) (Expr level lexemes.now) (ends_chain level) result }
{
    let (first, rest) = operand(alloc, level, lexemes)?;
    let (steps, rest) = more(alloc, level, rest)?;
    if steps.is_empty() {
        return Ok((first, rest));
    }
    let first = Box::new(alloc, first)?;
    Ok((SourceTerm::Chain { first, rest: steps }, rest))
}

/// The operators of the level and the operands behind them, as long as they go on.
#[cycle(terms)]
fn more(
    alloc: Global,
    level: Level,
    lexemes: &[Lexeme],
) -> Result<(Vec<SourceStep>, &[Lexeme]), Fault>
    requires { ends_operand level lexemes.now ≡ true }
    ensures { Parsed (λ x. (map step x.0.items, x.1.now)) (More level lexemes.now) (ends_chain level) result }
{
    let mut steps = Vec::new(alloc);
    let mut rest = lexemes;
    while let Some((first, after)) = front(rest) {
        let Some(symbol) = operator(level, first) else {
            break;
        };
        let symbol = Text::from_str(alloc, symbol)?;
        let (right, after) = operand(alloc, level, after)?;
        steps.push(SourceStep { symbol, right })?;
        rest = after;
    }
    Ok((steps, rest))
}

/// An operand of a sum is a product, and one of a product is a primary.
#[cycle(terms)]
fn operand(
    alloc: Global,
    level: Level,
    lexemes: &[Lexeme],
) -> Result<(SourceTerm, &[Lexeme]), Fault>
    ensures { Parsed (λ x. (tree x.0, x.1.now)) (Operand level lexemes.now) (ends_operand level) result }
{
    match level {
        Level::Sum => expr(alloc, Level::Product, lexemes),
        Level::Product => primary(alloc, lexemes),
    }
}

#[cycle(terms)]
fn primary(alloc: Global, lexemes: &[Lexeme]) -> Result<(SourceTerm, &[Lexeme]), Fault>
    ensures { Parsed (λ x. (tree x.0, x.1.now)) (Primary lexemes.now) anywhere result }
{
    let Some((first, rest)) = front(lexemes) else {
        return Err(Fault::Syntax);
    };
    match first {
        Lexeme::Variable(number) => Ok((SourceTerm::Var(*number), rest)),
        Lexeme::Integer(value) => Ok((SourceTerm::Int(*value), rest)),
        Lexeme::Symbol(text) => {
            let symbol = text.duplicate()?;
            let (arguments, rest) = arguments(alloc, rest)?;
            Ok((SourceTerm::Struct { symbol, arguments }, rest))
        }
        Lexeme::Mark(kind) => opened(alloc, *kind, rest),
    }
}

/// A list or brackets, whose opening bracket was read.
#[cycle(terms)]
fn opened(alloc: Global, kind: Kind, lexemes: &[Lexeme]) -> Result<(SourceTerm, &[Lexeme]), Fault>
    ensures { Parsed (λ x. (tree x.0, x.1.now)) (Primary (Lexeme.Mark kind ∷ lexemes.now)) anywhere result }
{
    match kind {
        Kind::OpenList => list(alloc, lexemes),
        Kind::Open => {
            let (inner, rest) = expr(alloc, Level::Sum, lexemes)?;
            let rest = behind(Kind::Close, rest)?;
            Ok((inner, rest))
        }
        _ => Err(Fault::Syntax),
    }
}

/// A list, whose opening bracket was read.
#[cycle(terms)]
fn list(alloc: Global, lexemes: &[Lexeme]) -> Result<(SourceTerm, &[Lexeme]), Fault>
    ensures { Parsed (λ x. (tree x.0, x.1.now)) (Primary (Lexeme.Mark OpenList ∷ lexemes.now)) anywhere result }
{
    if let Some(rest) = skip(Kind::CloseList, lexemes) {
        let symbol = Text::from_str(alloc, "[]")?;
        let arguments = Vec::new(alloc);
        return Ok((SourceTerm::Struct { symbol, arguments }, rest));
    }
    let (items, rest) = some_items(alloc, lexemes)?;
    let (tail, rest) = list_end(alloc, rest)?;
    Ok((SourceTerm::List { items, tail }, rest))
}

/// The tail behind a bar, where there is one, and the closing bracket.
#[cycle(terms)]
fn list_end(
    alloc: Global,
    lexemes: &[Lexeme],
) -> Result<(Option<Box<SourceTerm>>, &[Lexeme]), Fault>
    ensures { Parsed (λ x. (tail_view x.0, x.1.now)) (ListEnd lexemes.now) anywhere result }
{
    if let Some(rest) = skip(Kind::Bar, lexemes) {
        let (tail, rest) = expr(alloc, Level::Sum, rest)?;
        let rest = behind(Kind::CloseList, rest)?;
        let tail = Box::new(alloc, tail)?;
        return Ok((Some(tail), rest));
    }
    let rest = behind(Kind::CloseList, lexemes)?;
    Ok((None, rest))
}

/// The arguments behind a symbol, of which there may be none.
#[cycle(terms)]
pub fn arguments(alloc: Global, lexemes: &[Lexeme]) -> Result<(Vec<SourceTerm>, &[Lexeme]), Fault>
    ensures { Parsed (λ x. (map tree x.0.items, x.1.now)) (Arguments lexemes.now) anywhere result }
{
    let Some(rest) = skip(Kind::OpenCall, lexemes) else {
        return Ok((Vec::new(alloc), lexemes));
    };
    let (items, rest) = some_items(alloc, rest)?;
    let rest = behind(Kind::Close, rest)?;
    Ok((items, rest))
}

/// At least one term, with commas between.
#[cycle(terms)]
fn some_items(alloc: Global, lexemes: &[Lexeme]) -> Result<(Vec<SourceTerm>, &[Lexeme]), Fault>
    ensures { Parsed (λ x. (map tree x.0.items, x.1.now)) (Items lexemes.now) ends_items result }
{
    let (first, mut rest) = expr(alloc, Level::Sum, lexemes)?;
    let mut found = Vec::new(alloc);
    found.push(first)?;
    while let Some(after) = skip(Kind::Comma, rest) {
        let (next, after) = expr(alloc, Level::Sum, after)?;
        found.push(next)?;
        rest = after;
    }
    Ok((found, rest))
}
