//! What is still to be printed.

use akl_terms::Term;

/// A byte, a whole term, or the tail of a list with its closing bracket.
#[derive(Clone, Copy)]
pub enum Piece {
    Byte(u8),
    Whole(Term),
    Tail(Term),
}
