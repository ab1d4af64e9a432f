//! How a symbol is written.

ghost use Rattle.std.specs.Prelude.{◌≡◌, ◌++◌, ◌∷◌, [], IfOk, OnOk, flat_map};
ghost use Rattle.std.specs.List.{list_all};
ghost use Rattle.akl_terms.specs.Words.{is_lower, is_word, is_lower_word, is_plain_name};
ghost use Rattle.answer_text.specs.SymbolText.{escaped, symbol_text, constant_text};

use std::alloc::{AllocError, Global};

fn is_lower(byte: u8) -> bool
    ensures { result ≡ is_lower byte }
{
    b'a' <= byte && byte <= b'z'
}

fn is_word(byte: u8) -> bool
    ensures { result ≡ is_word byte }
{
    is_lower(byte) || b'A' <= byte && byte <= b'Z' || b'0' <= byte && byte <= b'9' || byte == b'_'
}

fn are_words(bytes: &[u8]) -> bool
    ensures { result ≡ list_all is_word bytes.now }
{
    bytes.iter().all(|b| is_word(*b))
}

fn is_lower_word(bytes: &[u8]) -> bool
    ensures { result ≡ is_lower_word bytes.now }
{
    match bytes {
        [] => false,
        [first, rest @ ..] => is_lower(*first) && are_words(rest),
    }
}

// Whether a text is a name as it stands.
fn is_plain_name(text: &str) -> bool
    ensures { result ≡ is_plain_name text.now }
{
    is_lower_word(text.as_bytes()) && !(text == "is") && !(text == "mod")
}

fn push_escaped(out: &mut Vec<u8>, byte: u8) -> Result<(), AllocError>
    ensures { OnOk result (out.new.items ≡ out.old.items ++ escaped byte) }
{
    match byte {
        b'\'' => out.extend_from_slice(b"\\'"),
        b'\\' => out.extend_from_slice(b"\\\\"),
        b'\n' => out.extend_from_slice(b"\\n"),
        b'\t' => out.extend_from_slice(b"\\t"),
        _ => Ok(out.push(byte)?),
    }
}

fn push_quoted(out: &mut Vec<u8>, bytes: &[u8]) -> Result<(), AllocError>
    ensures { OnOk result (out.new.items ≡ out.old.items ++ (39 ∷ flat_map escaped bytes.now ++ 39 ∷ [])) }
{
    out.push(b'\'')?;
    for byte in bytes {
        push_escaped(out, *byte)?;
    }
    out.push(b'\'')?;
    Ok(())
}

/// The text of a symbol: a name as it stands, any other in quotes, where a quote, a backslash, a
/// newline and a tab are written with a backslash.
pub fn symbol_text(alloc: Global, symbol: &str) -> Result<Vec<u8>, AllocError>
    ensures { IfOk result (λ text. text.items ≡ symbol_text symbol.now) }
{
    let mut text = Vec::new(alloc);
    push_symbol(&mut text, symbol)?;
    Ok(text)
}

/// Appends the text of a symbol.
pub fn push_symbol(out: &mut Vec<u8>, symbol: &str) -> Result<(), AllocError>
    ensures { OnOk result (out.new.items ≡ out.old.items ++ symbol_text symbol.now) }
{
    if is_plain_name(symbol) {
        out.extend_from_slice(symbol.as_bytes())
    } else {
        push_quoted(out, symbol.as_bytes())
    }
}

/// Appends a symbol without arguments: `[]` as it stands, else as `push_symbol`.
pub fn push_constant(out: &mut Vec<u8>, symbol: &str) -> Result<(), AllocError>
    ensures { OnOk result (out.new.items ≡ out.old.items ++ constant_text symbol.now) }
{
    if symbol == "[]" {
        out.extend_from_slice(symbol.as_bytes())
    } else {
        push_symbol(out, symbol)
    }
}
