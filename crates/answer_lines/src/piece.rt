//! What is still to be printed.

/// A byte, the whole tree of a node, or a node as the tail of a list with its closing bracket.
#[derive(Clone, Copy)]
pub enum Piece {
    Byte(u8),
    Whole(usize),
    Tail(usize),
}
