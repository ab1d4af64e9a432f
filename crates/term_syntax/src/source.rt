//! Terms as they are written.

use akl_terms::Text;

/// A term as it is written.
///
/// It nests at most three levels for each open bracket and three more, however long a list or a sum is.
#[derive(Drop)]
#[cycle(source)]
pub enum SourceTerm {
    /// A variable, by its number: variables are numbered by first occurrence.
    Var(u32),
    Int(i128),
    /// A symbol with its arguments.
    Struct {
        symbol: Text,
        arguments: Vec<SourceTerm>,
    },
    /// A list of at least one item, with a tail exactly where a bar is written.
    List {
        items: Vec<SourceTerm>,
        tail: Option<Box<SourceTerm>>,
    },
    /// A sum or a product of at least two operands, which associates to the left.
    Chain {
        first: Box<SourceTerm>,
        rest: Vec<SourceStep>,
    },
}

/// An operator of a sum or a product, and the operand behind it.
#[derive(Drop)]
#[cycle(source)]
pub struct SourceStep {
    pub symbol: Text,
    pub right: SourceTerm,
}
