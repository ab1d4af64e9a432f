//! The front of a list, and of lexemes.

ghost use Rattle.std.specs.Prelude.{◌≡◌, ◌∷◌, List, IfOk, IfErr, OnErr, IfSome, IfNone, IsTrue, ◌↔◌, []};
ghost use Rattle.akl_lexemes.specs.declared.lexeme.Lexeme.{Lexeme};
ghost use Rattle.akl_lexemes.specs.declared.fault.Fault.TheVariants.{Syntax};

use crate::fault::Fault;
use crate::lexeme::Lexeme;
use akl_text::Kind;

/// The first element, and those behind it.
pub fn front<T>(items: &[T]) -> Option<(&T, &[T])>
    ensures some { IfSome result (λ x. items.now ≡ x.0.now ∷ x.1.now) }
    ensures none { IfNone result (items.now ≡ []) }
{
    items.split_first()
}

/// Whether the lexeme is the mark of a kind.
fn is_mark(kind: Kind, lexeme: &Lexeme) -> bool
    ensures { IsTrue result ↔ (lexeme.now ≡ Lexeme.Mark kind) }
{
    match lexeme {
        Lexeme::Mark(found) => *found == kind,
        _ => false,
    }
}

/// What stands behind the mark, where the lexemes begin with it.
pub fn skip(kind: Kind, lexemes: &[Lexeme]) -> Option<&[Lexeme]>
    ensures some { IfSome result (λ rest. lexemes.now ≡ Lexeme.Mark kind ∷ rest.now) }
    ensures none { IfNone result ((a : List Lexeme) → lexemes.now ≡ Lexeme.Mark kind ∷ a → ⊥) }
{
    let (first, rest) = front(lexemes)?;
    if is_mark(kind, first) {
        Some(rest)
    } else {
        None
    }
}

/// What stands behind the mark, with which the lexemes must begin.
pub fn behind(kind: Kind, lexemes: &[Lexeme]) -> Result<&[Lexeme], Fault>
    ensures ok { IfOk result (λ rest. lexemes.now ≡ Lexeme.Mark kind ∷ rest.now) }
    ensures none { IfErr result (λ e. e ≡ Syntax) }
    ensures err { OnErr result ((a : List Lexeme) → lexemes.now ≡ Lexeme.Mark kind ∷ a → ⊥) }
{
    skip(kind, lexemes).ok_or(Fault::Syntax)
}
