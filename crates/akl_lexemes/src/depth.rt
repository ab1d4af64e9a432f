//! How many brackets are open.

ghost use Rattle.std.specs.Prelude.{◌≡◌};
ghost use Rattle.akl_lexemes.specs.Limits.{first_too_deep, opens, closes};

use crate::fronts::front;
use akl_text::{Kind, Token};

/// How many brackets may be open at one place.
const OPEN_BRACKETS: usize = 200;

fn opens(kind: Kind) -> bool
    ensures { result ≡ opens kind }
{
    matches!(&kind, Kind::Open | Kind::OpenCall | Kind::OpenList)
}

fn closes(kind: Kind) -> bool
    ensures { result ≡ closes kind }
{
    matches!(&kind, Kind::Close | Kind::CloseList)
}

/// The first token at which more than 200 brackets are open.
pub fn first_too_deep(tokens: &[Token]) -> Option<Token>
    ensures { result ≡ first_too_deep tokens.now }
{
    let mut opened = 0usize;
    let mut closed = 0usize;
    let mut rest = tokens;
    while let Some((token, behind)) = front(rest) {
        if opens(token.kind) {
            if opened.saturating_sub(closed) >= OPEN_BRACKETS {
                return Some(*token);
            }
            opened += 1;
        } else if closes(token.kind) {
            closed += 1;
        }
        rest = behind;
    }
    None
}
