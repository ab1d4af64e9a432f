//! What ends a command before anything is written.

ghost use Rattle.std.specs.Prelude.{◌≡◌};
ghost use Rattle.akl_run.specs.Stops.{IsStop, IsWordsStop, IsTextStop, IsLoadingStop};

use crate::report::{Refusal, Status};
use akl_args::WordsError;
use akl_outside::ReadError;
use akl_syntax::SyntaxError;
use clause_checks::LoadError;
use std::alloc::{AllocError, AllocFailed};

/// The status and the refusal of a command that ended before anything was written.
#[derive(Drop)]
pub struct Stop {
    pub status: Status,
    pub refusal: Refusal,
}

impl Stop {
    /// For want of memory.
    pub fn no_memory() -> Self
        ensures { IsStop Status.NoMemory Refusal.Nothing result }
    {
        Stop {
            status: Status::NoMemory,
            refusal: Refusal::Nothing,
        }
    }

    /// The words are no command.
    pub fn words(error: WordsError) -> Self
        ensures { IsWordsStop error result }
    {
        match error {
            WordsError::Memory(_) => Stop::no_memory(),
            error => Stop {
                status: Status::Words,
                refusal: Refusal::Words(error),
            },
        }
    }

    /// The text is refused, with the status of its side.
    pub fn text(status: Status, error: SyntaxError) -> Self
        ensures { IsTextStop status error result }
    {
        match error {
            SyntaxError::Memory(_) => Stop::no_memory(),
            error => Stop {
                status,
                refusal: Refusal::TextOf(error),
            },
        }
    }

    /// The text isn't loaded, with the status of its side.
    pub fn loading(status: Status, error: LoadError) -> Self
        ensures { IsLoadingStop status error result }
    {
        match error {
            LoadError::Memory(_) => Stop::no_memory(),
            error => Stop {
                status,
                refusal: Refusal::Loading(error),
            },
        }
    }
}

impl From<AllocError> for Stop {
    ghost use Rattle.akl_run.specs.Stops.{IsStop};
    ghost use Rattle.akl_run.specs.declared.report.Status.{Status};
    ghost use Rattle.akl_run.specs.declared.report.Refusal.{Refusal};

    ghost from_gives = { λ _ stop. IsStop Status.NoMemory Refusal.Nothing stop };

    fn from(_: AllocError) -> Self {
        Stop::no_memory()
    }
}

impl<T: Drop> From<AllocFailed<T>> for Stop {
    ghost use Rattle.akl_run.specs.Stops.{IsStop};
    ghost use Rattle.akl_run.specs.declared.report.Status.{Status};
    ghost use Rattle.akl_run.specs.declared.report.Refusal.{Refusal};

    ghost from_gives = { λ _ stop. IsStop Status.NoMemory Refusal.Nothing stop };

    fn from(_failed: AllocFailed<T>) -> Self {
        Stop::no_memory()
    }
}

impl From<ReadError> for Stop {
    ghost use Rattle.akl_run.specs.Stops.{IsReadStop};

    ghost from_gives = { λ error stop. IsReadStop error stop };

    fn from(error: ReadError) -> Self {
        match error {
            ReadError::Failed => Stop {
                status: Status::ReadFault,
                refusal: Refusal::Nothing,
            },
            ReadError::Memory(_) => Stop::no_memory(),
        }
    }
}
