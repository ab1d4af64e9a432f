//! The lexemes of tokens.

ghost use Rattle.std.specs.Prelude.{◌≡◌, ◌+◌, ◌<◌, ◌≤◌, [], IfOk, IfErr, None, false, length};
ghost use Rattle.std.specs.List.{All};
ghost use Rattle.akl_text.specs.Spelling.{IsTokenOf};
ghost use Rattle.akl_lexemes.specs.Lexemes.{IsLexeme, Lexemes};
ghost use Rattle.akl_lexemes.specs.Limits.{is_out_of_range, first_out_of_range, first_too_deep};
ghost use Rattle.akl_lexemes.specs.Faults.{IsRangeFault, IsFirstRangeFault, IsLimitFault};

use crate::depth::first_too_deep;
use crate::error::SyntaxError;
use crate::fronts::front;
use crate::lexeme::Lexeme;
use crate::names::Names;
use akl_terms::Text;
use akl_text::{Kind, Token, integer_of, text_of};
use std::alloc::Global;

/// The lexemes of a clause or query, and the spelling of each of its variables.
#[derive(Drop)]
pub struct Lexed {
    pub lexemes: Vec<Lexeme>,
    pub names: Vec<Text>,
}

/// What a token stands for, behind variables of some names.
fn lexeme(
    alloc: Global,
    bytes: &[u8],
    token: &Token,
    names: &mut Names,
) -> Result<Lexeme, SyntaxError>
    requires of_bytes { IsTokenOf bytes.now token.now }
    requires room { length names.old < 4294967295 }
    ensures lexeme { IfOk result (λ l. IsLexeme bytes.now names.old token.now l names.new) }
    ensures in_range { IfOk result (λ _. is_out_of_range bytes.now token.now ≡ false) }
    ensures more { IfOk result (λ _. length names.new ≤ length names.old + 1) }
    ensures err { IfErr result (IsRangeFault bytes.now token.now) }
{
    if token.kind.is_symbol() {
        return Ok(Lexeme::Symbol(text_of(alloc, bytes, token)?));
    }
    match token.kind {
        Kind::Variable => {
            let name = text_of(alloc, bytes, token)?;
            Ok(Lexeme::Variable(names.number(name)?))
        }
        Kind::Integer => match integer_of(bytes, token) {
            Some(value) => Ok(Lexeme::Integer(value)),
            None => Err(SyntaxError::IntRange { at: token.start }),
        },
        kind => Ok(Lexeme::Mark(kind)),
    }
}

/// The lexemes of tokens. `IntRange` says which integer is the first out of range.
fn lexemes(alloc: Global, bytes: &[u8], tokens: &[Token]) -> Result<Lexed, SyntaxError>
    requires of_bytes { All (IsTokenOf bytes.now) tokens.now }
    requires few { length tokens.now < 4294967295 }
    ensures lexemes { IfOk result (λ x. Lexemes bytes.now [] tokens.now x.lexemes.items x.names.items) }
    ensures in_range { IfOk result (λ _. first_out_of_range bytes.now tokens.now ≡ None) }
    ensures err { IfErr result (IsFirstRangeFault bytes.now tokens.now) }
{
    let mut lexemes = Vec::new(alloc);
    let mut names = Names::new(alloc);
    let mut rest = tokens;
    while let Some((token, behind)) = front(rest) {
        let found = lexeme(alloc, bytes, token, &mut names)?;
        lexemes.push(found)?;
        rest = behind;
    }
    Ok(Lexed {
        lexemes,
        names: names.into_names(),
    })
}

/// The lexemes of tokens, unless too many brackets are open or an integer is out of range.
pub fn within_limits(alloc: Global, bytes: &[u8], tokens: &[Token]) -> Result<Lexed, SyntaxError>
    requires of_bytes { All (IsTokenOf bytes.now) tokens.now }
    requires few { length tokens.now < 4294967295 }
    ensures lexemes { IfOk result (λ x. Lexemes bytes.now [] tokens.now x.lexemes.items x.names.items) }
    ensures shallow { IfOk result (λ _. first_too_deep tokens.now ≡ None) }
    ensures in_range { IfOk result (λ _. first_out_of_range bytes.now tokens.now ≡ None) }
    ensures err { IfErr result (IsLimitFault bytes.now tokens.now) }
{
    if let Some(token) = first_too_deep(tokens) {
        return Err(SyntaxError::TooDeep { at: token.start });
    }
    lexemes(alloc, bytes, tokens)
}
