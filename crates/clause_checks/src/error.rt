//! Why a program or a query isn't loaded.

ghost use Rattle.clause_checks.specs.Memory.{IsMemory};

use akl_terms::Key;
use std::alloc::{AllocError, AllocFailed};

/// What there may be too many of.
#[derive(Clone, Copy)]
pub enum Limit {
    /// More than 10,000 clauses.
    Clauses,
    /// More than 256 clauses of one definition, or parts of one inline choice.
    PerDefinition,
    /// More than 256 variables of a clause or of the query.
    Variables,
    /// More than 32 arguments of a term or of an atom.
    Arity,
}

/// Why a program or a query isn't loaded.
#[derive(Drop)]
pub enum LoadError {
    /// Two clauses of this definition have different operators, or two parts of an inline choice in a
    /// clause of it. In a query the key is the empty symbol without arguments.
    MixedGuards { key: Key },
    /// A goal calls what has no clause.
    Undefined { key: Key },
    /// A clause's head is reserved.
    Reserved { key: Key },
    /// There are more than a limit allows: so many.
    TooMany { what: Limit, count: u32 },
    /// Memory was refused.
    Memory(AllocError),
}

impl From<AllocError> for LoadError {
    ghost from_gives = { λ _ e. IsMemory e };

    fn from(error: AllocError) -> LoadError {
        LoadError::Memory(error)
    }
}

impl<T: Drop> From<AllocFailed<T>> for LoadError {
    ghost from_gives = { λ _ e. IsMemory e };

    fn from(failed: AllocFailed<T>) -> LoadError {
        LoadError::Memory(AllocError::from(failed))
    }
}
