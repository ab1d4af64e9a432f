//! Operators between terms, by their level.

ghost use Rattle.std.specs.Prelude.{◌≡◌, option_map};
ghost use Rattle.term_syntax.specs.Grammar.{operator_of};

use akl_lexemes::Lexeme;
use akl_text::Kind;

/// Operators of a product bind closer than those of a sum.
#[derive(Clone, Copy)]
pub enum Level {
    Sum,
    Product,
}

/// The symbol of an operator of the level.
pub fn operator(level: Level, lexeme: &Lexeme) -> Option<&'static str>
    ensures { option_map (λ w. w.now) result ≡ operator_of level lexeme.now }
{
    match (level, lexeme) {
        (Level::Sum, Lexeme::Mark(Kind::Plus)) => Some("+"),
        (Level::Sum, Lexeme::Mark(Kind::Minus)) => Some("-"),
        (Level::Product, Lexeme::Mark(Kind::Star)) => Some("*"),
        (Level::Product, Lexeme::Mark(Kind::Div)) => Some("//"),
        (Level::Product, Lexeme::Mark(Kind::Mod)) => Some("mod"),
        _ => None,
    }
}
