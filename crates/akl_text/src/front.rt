//! The token at the front of a text.

ghost use Rattle.std.specs.Prelude.{◌≡◌, ◌≤◌, ◌<◌, ◌++◌, ℕ, List, length, IfSome, IfNone, take, drop};
ghost use Rattle.akl_text.specs.Front.{allows_sign, opens_call, ends_clause, IsLongest, BeginsText};
ghost use Rattle.akl_text.specs.Computed.{word_kind, operator_at, mark_at, front_at};

use crate::bytes::{byte_at, digits_len, is_blank, is_digit, is_lower, is_upper, word_len};
use crate::quoted::quoted_len;
use crate::token::{Kind, Token};

fn kind_of_word(word: &[u8]) -> Kind
    ensures { result ≡ word_kind word.now }
{
    if word == b"is".as_slice() {
        Kind::Is
    } else if word == b"mod".as_slice() {
        Kind::Mod
    } else {
        Kind::Name
    }
}

fn allows_sign(before: Option<Token>) -> bool
    ensures { result ≡ allows_sign before }
{
    match before {
        None => true,
        Some(before) => !before.kind.ends_operand(),
    }
}

fn opens_call(before: Option<Token>, at: usize) -> bool
    ensures { result ≡ opens_call before at }
{
    match before {
        None => false,
        Some(before) => before.kind.is_symbol() && before.end == at,
    }
}

fn ends_clause(rest: &[u8]) -> bool
    ensures { result ≡ ends_clause rest.now }
{
    match rest.first() {
        None => true,
        Some(first) => is_blank(*first) || *first == b'%',
    }
}

/// The operator or the bracket that begins with three bytes, and its length.
fn operator(first: u8, second: u8, third: u8) -> Option<(Kind, usize)>
    ensures { result ≡ operator_at first second third }
{
    Some(match first {
        b'=' if second == b':' && third == b'=' => (Kind::Same, 3),
        b'=' if second == b'\\' && third == b'=' => (Kind::Differs, 3),
        b'=' if second == b'<' => (Kind::AtMost, 2),
        b'=' => (Kind::Equal, 1),
        b':' if second == b'-' => (Kind::Neck, 2),
        b'-' if second == b'>' => (Kind::Arrow, 2),
        b'-' => (Kind::Minus, 1),
        b'>' if second == b'=' => (Kind::AtLeast, 2),
        b'>' => (Kind::Greater, 1),
        b'/' if second == b'/' => (Kind::Div, 2),
        b')' => (Kind::Close, 1),
        b'[' => (Kind::OpenList, 1),
        b']' => (Kind::CloseList, 1),
        b',' => (Kind::Comma, 1),
        b'|' => (Kind::Bar, 1),
        b';' => (Kind::Semicolon, 1),
        b'?' => (Kind::Question, 1),
        b'<' => (Kind::Less, 1),
        b'+' => (Kind::Plus, 1),
        b'*' => (Kind::Star, 1),
        _ => return None,
    })
}

/// The token that begins with a quote, a `(`, a full stop or the bytes of an operator.
#[tactic(auto, unfolding(crate::specs::Computed::mark_at))]
fn mark(before: Option<Token>, at: usize, text: &[u8]) -> Option<(Kind, usize)>
    requires { 0 < length text.now }
    ensures { result ≡ mark_at before at text.now }
{
    match byte_at(text, 0) {
        b'\'' => Some((Kind::Quoted, 2 + quoted_len(&text[1..])?)),
        b'(' if opens_call(before, at) => Some((Kind::OpenCall, 1)),
        b'(' => Some((Kind::Open, 1)),
        b'.' if ends_clause(&text[1..]) => Some((Kind::End, 1)),
        first => operator(first, byte_at(text, 1), byte_at(text, 2)),
    }
}

/// The kind and the length of the token at the front, computed.
#[tactic(auto, unfolding(crate::specs::Computed::front_at))]
fn front(before: Option<Token>, at: usize, text: &[u8]) -> Option<(Kind, usize)>
    requires { 0 < length text.now }
    ensures { result ≡ front_at before at text.now }
{
    let first = byte_at(text, 0);
    if is_lower(first) {
        let len = word_len(text);
        return Some((kind_of_word(&text[..len]), len));
    }
    if is_upper(first) {
        return Some((Kind::Variable, word_len(text)));
    }
    if is_digit(first) {
        return Some((Kind::Integer, digits_len(text)));
    }
    if first == b'-' && allows_sign(before) {
        let len = digits_len(&text[1..]);
        if len > 0 {
            return Some((Kind::Integer, 1 + len));
        }
    }
    mark(before, at, text)
}

/// The kind and the length of the longest token at the front of a text.
///
/// The text goes on at the place `at`, after the token `before` of the same clause.
pub fn longest(before: Option<Token>, at: usize, text: &[u8]) -> Option<(Kind, usize)>
    requires { 0 < length text.now }
    ensures found { IfSome result (λ x. IsLongest before at x.0 (take x.1 text.now) (drop x.1 text.now)) }
    ensures within { IfSome result (λ x. (0 < x.1) × (x.1 ≤ length text.now)) }
    ensures none { IfNone result ((k : Kind) (w rest : List ℕ) → text.now ≡ w ++ rest → BeginsText before at k w rest → ⊥) }
{
    front(before, at, text)
}
