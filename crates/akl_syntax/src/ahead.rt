//! Looking ahead.

ghost use Rattle.std.specs.Prelude.{◌≡◌, false, IfSome, IfNone};
ghost use Rattle.akl_syntax.specs.Ahead.{joins, begins_join, is_test};
ghost use Rattle.akl_syntax.specs.Goals.{begins_collect};
ghost use Rattle.akl_syntax.specs.Parts.{IsCollecting};
ghost use Rattle.akl_lexemes.specs.Brackets.{IsTable};

use crate::relation::relation;
use akl_lexemes::{Brackets, Lexeme, front, skip};
use akl_text::Kind;
use term_syntax::{Level, operator};

/// Whether a lexeme joins two terms: an operator or a relation.
fn joining(lexeme: &Lexeme) -> bool
    ensures { result ≡ joins lexeme.now }
{
    operator(Level::Product, lexeme).is_some()
        || operator(Level::Sum, lexeme).is_some()
        || relation(lexeme).is_some()
}

/// Whether the lexemes begin with an operator or a relation.
pub fn joined(lexemes: &[Lexeme]) -> bool
    ensures { result ≡ begins_join lexemes.now }
{
    match front(lexemes) {
        Some((first, _)) => joining(first),
        None => false,
    }
}

/// The symbol of a collecting goal.
const COLLECTING: &str = "bagof";

/// What stands behind the opening bracket, where the lexemes begin a collecting goal.
pub fn collecting(lexemes: &[Lexeme]) -> Option<&[Lexeme]>
    ensures some { IfSome result (λ rest. IsCollecting lexemes.now rest.now) }
    ensures none { IfNone result (begins_collect lexemes.now ≡ false) }
{
    let (first, rest) = front(lexemes)?;
    let Lexeme::Symbol(symbol) = first else {
        return None;
    };
    if symbol.as_str() == COLLECTING {
        skip(Kind::OpenCall, rest)
    } else {
        None
    }
}

/// Whether the goal at the front is a term, a relation and a term.
pub fn looks_tested(brackets: &Brackets, lexemes: &[Lexeme]) -> bool
    requires { IsTable brackets.now lexemes.now }
    ensures { result ≡ is_test lexemes.now }
{
    let Some((first, rest)) = front(lexemes) else {
        return true;
    };
    match first {
        Lexeme::Symbol(_) => match skip(Kind::OpenCall, rest) {
            Some(after) => joined(brackets.closed(after)),
            None => joined(rest),
        },
        Lexeme::Mark(kind) => match kind {
            Kind::Open => joined(brackets.closed(rest)),
            _ => true,
        },
        _ => true,
    }
}
