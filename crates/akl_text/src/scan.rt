//! The scan of a text for its tokens.

ghost use Rattle.std.specs.Prelude.{◌≤◌, length, IfOk};
ghost use Rattle.std.specs.List.{All};
ghost use Rattle.akl_text.specs.Spelling.{IsTokenOf};
ghost use Rattle.akl_text.specs.Tokens.{ReadsFrom, IfScanned, IsMemory};

use crate::bytes::rest_from;
use crate::front::longest;
use crate::layout::layout_len;
use crate::token::{Kind, Token};
use std::alloc::{AllocError, AllocFailed, Global};

/// Why a text was not read.
#[derive(Drop)]
pub enum TextError {
    /// Before any end token, neither a token nor layout begins at this byte.
    NoToken {
        /// The number of bytes before it.
        at: usize,
    },
    /// Memory was refused.
    Memory(AllocError),
}

impl<T: Drop> From<AllocFailed<T>> for TextError {
    ghost from_gives = { λ _ e. IsMemory e };

    fn from(failed: AllocFailed<T>) -> TextError {
        TextError::Memory(AllocError::from(failed))
    }
}

/// The tokens of a clause that begins at `from`: through its end token, or to the end of the text.
///
/// `NoToken` says where, before any end token, neither a token nor layout begins. Of what stands after the end
/// token only one byte is looked at, so that a text is read clause by clause in time linear in its bytes.
pub fn tokens(alloc: Global, bytes: &[u8], from: usize) -> Result<Vec<Token>, TextError>
    requires { from ≤ length bytes.now }
    ensures read { IfScanned (ReadsFrom bytes.now from) result }
    ensures spelled { IfOk result (λ found. All (IsTokenOf bytes.now) found.items) }
{
    let mut found = Vec::new(alloc);
    let mut before = None;
    let mut at = from;
    while at < bytes.len() {
        let rest = rest_from(bytes, at);
        if let Some(len) = layout_len(rest) {
            at += len;
            continue;
        }
        let Some((kind, len)) = longest(before, at, rest) else {
            return Err(TextError::NoToken { at });
        };
        let token = Token {
            kind,
            start: at,
            end: at + len,
        };
        found.push(token)?;
        if let Kind::End = kind {
            return Ok(found);
        }
        at += len;
        before = Some(token);
    }
    Ok(found)
}
