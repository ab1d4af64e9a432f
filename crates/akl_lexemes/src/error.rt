//! Why a program or a query is refused.

ghost use Rattle.akl_lexemes.specs.Memory.{IsMemory};

use std::alloc::{AllocError, AllocFailed};

/// Why a program or a query is refused, and at which byte of its text.
#[derive(Drop)]
pub enum SyntaxError {
    /// The text that begins at this byte is no clause, or no query.
    Syntax { at: usize },
    /// The bracket at this byte is the first with which more than 200 are open.
    TooDeep { at: usize },
    /// The integer at this byte is the first that is no signed number of 128 bits.
    IntRange { at: usize },
    /// The text has so many bytes, which is too many.
    TooLong { count: usize },
    /// Memory was refused.
    Memory(AllocError),
}

impl From<AllocError> for SyntaxError {
    ghost from_gives = { λ _ e. IsMemory e };

    fn from(error: AllocError) -> SyntaxError {
        SyntaxError::Memory(error)
    }
}

impl<T: Drop> From<AllocFailed<T>> for SyntaxError {
    ghost from_gives = { λ _ e. IsMemory e };

    fn from(failed: AllocFailed<T>) -> SyntaxError {
        SyntaxError::Memory(AllocError::from(failed))
    }
}
