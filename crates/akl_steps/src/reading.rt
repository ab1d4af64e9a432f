//! The texts of programs.

ghost use Rattle.std.specs.Prelude.{◌≤◌, length};

use akl_outside::{ReadError, Source, read_up_to};
use akl_run::Status;
use std::alloc::Global;

/// The most bytes of a program that are read: one more than it may have.
const MOST_READ: usize = 1_000_001;

/// The text that a source has, as much as a program may have and a byte more. An `Err` is the status of a read that failed, or
/// of want of memory.
pub fn text_of<S: Source>(alloc: Global, source: &mut S) -> Result<Vec<u8>, Status> {
    match read_up_to(alloc, source, MOST_READ) {
        Ok(text) => Ok(text),
        Err(ReadError::Failed) => Err(Status::ReadFault),
        Err(ReadError::Memory(_)) => Err(Status::NoMemory),
    }
}

/// The text of a program, or its front where it is longer than any that is read.
pub fn program_front(text: &[u8]) -> &[u8]
    ensures { length result.now ≤ 1000001 }
{
    &text[..text.len().min(MOST_READ)]
}
