//! Why lexemes were not read.

ghost use Rattle.std.specs.Prelude.{◌≡◌};
ghost use Rattle.akl_lexemes.specs.declared.fault.Fault.TheVariants.{Memory};

use std::alloc::{AllocError, AllocFailed};

/// Why lexemes were not read as a part of the grammar.
#[derive(Clone, Copy)]
pub enum Fault {
    /// Nothing of the part stands there.
    Syntax,
    /// Memory was refused.
    Memory,
}

impl From<AllocError> for Fault {
    ghost from_gives = { λ _ e. e ≡ Memory };

    fn from(_e: AllocError) -> Fault {
        Fault::Memory
    }
}

impl<T: Drop> From<AllocFailed<T>> for Fault {
    ghost from_gives = { λ _ e. e ≡ Memory };

    fn from(_e: AllocFailed<T>) -> Fault {
        Fault::Memory
    }
}
