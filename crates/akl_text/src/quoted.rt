//! Quoted text.

ghost use Rattle.std.specs.Prelude.{◌≡◌, ◌≤◌, ◌<◌, length, IfSome};
ghost use Rattle.akl_text.specs.Computed.{is_escape, is_plain, quoted_end, quoted_at};

use crate::bytes::byte_at;
use std::str::from_utf8;

/// Whether two bytes between quotes stand for one character: a quote twice, or one after a backslash.
fn is_escape(first: u8, second: u8) -> bool
    ensures { result ≡ is_escape first second }
{
    match first {
        b'\'' => second == b'\'',
        b'\\' => matches!(second, b'\'' | b'\\' | b'n' | b't'),
        _ => false,
    }
}

/// Whether a byte between quotes stands for itself, or is a part of such a character.
fn is_plain(byte: u8) -> bool
    ensures { result ≡ is_plain byte }
{
    byte >= b' ' && !matches!(byte, b'\'' | b'\\' | 127)
}

/// After an opening quote: how many bytes stand before the closing one, if the text is closed.
fn inner_len(text: &[u8]) -> Option<usize>
    ensures value { result ≡ quoted_end text.now }
    ensures within { IfSome result (λ n. n < length text.now) }
{
    let mut at = 0;
    while at < text.len() {
        let first = text[at];
        if is_escape(first, byte_at(text, at + 1)) {
            at += 2;
        } else if is_plain(first) {
            at += 1;
        } else if first == b'\'' {
            return Some(at);
        } else {
            return None;
        }
    }
    None
}

/// After an opening quote: the same where the bytes before the closing quote are UTF-8.
pub fn quoted_len(text: &[u8]) -> Option<usize>
    ensures value { result ≡ quoted_at text.now }
    ensures within { IfSome result (λ n. n < length text.now) }
{
    let len = inner_len(text)?;
    match from_utf8(&text[..len]) {
        Ok(_) => Some(len),
        Err(_) => None,
    }
}
