//! Lexemes: tokens with what they stand for.

use akl_terms::Text;
use akl_text::Kind;

/// A token with what it stands for.
#[derive(Drop)]
pub enum Lexeme {
    /// A name or quoted text, by its text.
    Symbol(Text),
    /// A variable, by its number in the clause or query.
    Variable(u32),
    Integer(i128),
    /// Any other token, by its kind.
    Mark(Kind),
}
