//! What there may be too many of.

ghost use Rattle.std.specs.Prelude.{◌≡◌};
ghost use Rattle.clause_checks.specs.Rows.{above};
ghost use Rattle.clause_checks.specs.Refusals.{Answers, too_many};

use crate::error::{Limit, LoadError};
use std::alloc::AllocError;

/// How many clauses may be written.
pub const CLAUSES: usize = 10_000;

/// How many clauses a definition may have, and how many parts an inline choice.
pub const ALTERNATIVES: usize = 256;

/// How many variables a clause or a query may have.
pub const VARIABLES: usize = 256;

/// How many arguments a term or an atom may have.
pub const ARGUMENTS: usize = 32;

/// The number, where it is above the limit.
pub fn above(limit: usize, count: usize) -> Option<usize>
    ensures { result ≡ above limit count }
{
    if count > limit { Some(count) } else { None }
}

/// Refuses what was found to be too many. More than 4,294,967,295 have no number: it is want of memory.
pub fn none_above(what: Limit, found: Option<usize>) -> Result<(), LoadError>
    ensures { Answers (too_many what found) result }
{
    let Some(count) = found else {
        return Ok(());
    };
    match u32::try_from(count) {
        Ok(count) => Err(LoadError::TooMany { what, count }),
        Err(_) => Err(LoadError::Memory(AllocError)),
    }
}
