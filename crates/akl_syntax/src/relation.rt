//! Relations between terms, and operators between a guard and a body.

ghost use Rattle.std.specs.Prelude.{◌≡◌, option_map};
ghost use Rattle.akl_syntax.specs.Goals.{relation_of, guard_of};

use akl_lexemes::Lexeme;
use akl_terms::Op;
use akl_text::Kind;

/// The symbol of a relation between terms.
pub fn relation(lexeme: &Lexeme) -> Option<&'static str>
    ensures { option_map (λ w. w.now) result ≡ relation_of lexeme.now }
{
    match lexeme {
        Lexeme::Mark(Kind::Equal) => Some("="),
        Lexeme::Mark(Kind::Is) => Some("is"),
        Lexeme::Mark(Kind::Less) => Some("<"),
        Lexeme::Mark(Kind::Greater) => Some(">"),
        Lexeme::Mark(Kind::AtMost) => Some("=<"),
        Lexeme::Mark(Kind::AtLeast) => Some(">="),
        Lexeme::Mark(Kind::Same) => Some("=:="),
        Lexeme::Mark(Kind::Differs) => Some("=\\="),
        _ => None,
    }
}

/// The operator behind a guard.
pub fn guard_op(lexeme: &Lexeme) -> Option<Op>
    ensures { result ≡ guard_of lexeme.now }
{
    match lexeme {
        Lexeme::Mark(Kind::Arrow) => Some(Op::Condition),
        Lexeme::Mark(Kind::Bar) => Some(Op::Commit),
        Lexeme::Mark(Kind::Question) => Some(Op::Choice),
        _ => None,
    }
}
