//! The text that a token stands for.

ghost use Rattle.std.specs.Prelude.{◌≡◌, ◌≤◌, IfOk, IfSome, IfNone, IsTrue, length, string_bytes, encode_utf8_all, false, true};
ghost use Rattle.std.specs.Str.{chars, IsUtf8};
ghost use Rattle.akl_text.specs.Kinds.{has_text};
ghost use Rattle.akl_text.specs.Spelling.{IsTokenOf, Denotes, spelling, integer_value};
ghost use Rattle.akl_text.specs.declared.token.Kind.TheVariants.{Integer};
ghost use Rattle.akl_terms.specs.Arithmetic.{in_range};
ghost use Rattle.akl_text.specs.Computed.{decode, meaning, is_mark, inside};

use crate::token::{Kind, Token};
use akl_terms::Text;
use std::alloc::{AllocError, Global};
use std::str::from_utf8;

/// What a character stands for after a quote or a backslash.
fn meaning(c: char) -> char
    ensures { result ≡ meaning c }
{
    match c {
        'n' => '\n',
        't' => '\t',
        other => other,
    }
}

/// Whether a character between quotes begins an escape.
fn is_mark(c: char) -> bool
    ensures { result ≡ is_mark c }
{
    c == '\'' || c == '\\'
}

/// The characters between quotes, with each escape replaced.
fn decoded(alloc: Global, inner: &str) -> Result<String, AllocError>
    ensures { IfOk result (λ s. string_bytes s ≡ encode_utf8_all (decode false (chars inner.now))) }
{
    let mut text = String::new(alloc);
    let mut escaped = false;
    for c in inner.chars() {
        if escaped {
            text.push(meaning(c))?;
            escaped = false;
        } else if is_mark(c) {
            escaped = true;
        } else {
            text.push(c)?;
        }
    }
    Ok(text)
}

/// Bytes as the text that they are.
fn as_text(bytes: &[u8]) -> &str
    requires { IsUtf8 bytes.now }
    ensures { result.now ≡ bytes.now }
{
    match from_utf8(bytes) {
        Ok(text) => text,
        Err(_) => unreachable!(),
    }
}

/// What stands between the first and the last byte.
fn between(spelling: &[u8]) -> &[u8]
    requires { 2 ≤ length spelling.now }
    ensures { result.now ≡ inside spelling.now }
{
    &spelling[1..spelling.len() - 1]
}

/// The text of a name, a variable or a quoted token of these bytes.
///
/// Of a quoted token this is what stands between its quotes, with each escape replaced.
pub fn text_of(alloc: Global, bytes: &[u8], token: &Token) -> Result<Text, AllocError>
    requires of_bytes { IsTokenOf bytes.now token.now }
    requires has_text { IsTrue (has_text token.now.kind) }
    ensures { IfOk result (Denotes token.now.kind (spelling bytes.now token.now)) }
{
    let spelling = &bytes[token.start..token.end];
    if let Kind::Quoted = token.kind {
        let inner = as_text(between(spelling));
        return Ok(Text::new(decoded(alloc, inner)?));
    }
    Text::from_str(alloc, as_text(spelling))
}

/// The value of an integer token of these bytes, where it is a signed number of 128 bits.
pub fn integer_of(bytes: &[u8], token: &Token) -> Option<i128>
    requires of_bytes { IsTokenOf bytes.now token.now }
    requires integer { token.now.kind ≡ Integer }
    ensures value { IfSome result (λ n. n ≡ integer_value (spelling bytes.now token.now)) }
    ensures some { IfSome result (λ _. in_range (integer_value (spelling bytes.now token.now)) ≡ true) }
    ensures none { IfNone result (in_range (integer_value (spelling bytes.now token.now)) ≡ false) }
{
    match as_text(&bytes[token.start..token.end]).parse::<i128>() {
        Ok(value) => Some(value),
        Err(_) => None,
    }
}
