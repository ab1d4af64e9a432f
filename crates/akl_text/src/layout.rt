//! Layout: blanks and comments.

ghost use Rattle.std.specs.Prelude.{◌≡◌, ◌≤◌, ◌<◌, ◌++◌, ℕ, List, not, ◌==◌, false, length, take, drop, IfSome, IfNone};
ghost use Rattle.std.specs.List.{prefix_len};
ghost use Rattle.akl_text.specs.Layout.{IsLayout, SkipsFrom};
ghost use Rattle.akl_text.specs.Computed.{block_len, layout_at};

use crate::bytes::{byte_at, is_blank, rest_from};

/// After a `/*`: how many bytes stand up to the next `*/` and with it, if there is one.
fn block_len(text: &[u8]) -> Option<usize>
    ensures value { result ≡ block_len false text.now }
    ensures within { IfSome result (λ n. n ≤ length text.now) }
{
    let mut after_star = false;
    for (at, byte) in text.iter().enumerate() {
        if after_star && *byte == b'/' {
            return Some(at + 1);
        }
        after_star = *byte == b'*';
    }
    None
}

/// How many bytes stand before the end of the line.
fn line_len(text: &[u8]) -> usize
    ensures value { result ≡ prefix_len (λ b. not (b == 10)) text.now }
    ensures within { result ≤ length text.now }
{
    text.iter().take_while(|byte| **byte != b'\n').count()
}

/// The length of the piece of layout at the front, computed.
#[tactic(auto, unfolding(crate::specs::Computed::layout_at))]
fn layout_at(text: &[u8]) -> Option<usize>
    requires { 0 < length text.now }
    ensures { result ≡ layout_at text.now }
{
    let first = byte_at(text, 0);
    if is_blank(first) {
        return Some(1);
    }
    if first == b'%' {
        return Some(1 + line_len(&text[1..]));
    }
    if text.len() > 1 && first == b'/' && byte_at(text, 1) == b'*' {
        return Some(2 + block_len(&text[2..])?);
    }
    None
}

/// The length in bytes of the piece of layout with which a text begins, if it begins with one.
///
/// A piece is one blank, a comment from a `%` up to the end of its line, or a comment from a `/*` through the next `*/`.
pub fn layout_len(text: &[u8]) -> Option<usize>
    requires { 0 < length text.now }
    ensures found { IfSome result (λ n. IsLayout (take n text.now) (drop n text.now)) }
    ensures within { IfSome result (λ n. (0 < n) × (n ≤ length text.now)) }
    ensures none { IfNone result ((w rest : List ℕ) → text.now ≡ w ++ rest → IsLayout w rest → ⊥) }
{
    layout_at(text)
}

/// Where the layout ends that stands from a place on.
pub fn layout_end(bytes: &[u8], from: usize) -> usize
    requires { from ≤ length bytes.now }
    ensures skips { SkipsFrom bytes.now from result }
    ensures within { result ≤ length bytes.now }
    ensures onward { from ≤ result }
{
    let mut at = from;
    while at < bytes.len() {
        match layout_len(rest_from(bytes, at)) {
            Some(len) => at += len,
            None => return at,
        }
    }
    at
}
