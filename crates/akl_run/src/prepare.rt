//! From the words and the source to a loaded query.

ghost use Rattle.std.specs.Prelude.{◌≡◌, None, IfOk, IfErr, option_map};
ghost use Rattle.akl_run.specs.Words.{bytes_of};
ghost use Rattle.akl_run.specs.Commands.{side, IsRead, IsGiven, ReadStops, Stops};
ghost use Rattle.akl_run.specs.Steps.{IsReady};

use crate::loaded::{Loaded, load_asked, load_program};
use crate::stop::Stop;
use crate::words::{Asked, read_asked};
use akl_args::Flags;
use akl_outside::{Source, read_up_to};
use std::alloc::Global;

/// One byte more than a program may have.
const MOST_READ: usize = 1_000_001;

/// A query that is ready to run, by how many workers, how many labels its run may make, and what else is shown.
#[derive(Drop)]
pub struct Prepared {
    pub loaded: Loaded,
    pub workers: u32,
    pub budget: u64,
    pub flags: Flags,
}

/// The source's bytes, up to one more than a program may have.
pub fn read_program<S: Source>(alloc: Global, program: &mut S) -> Result<Vec<u8>, Stop>
    ensures ok { IfOk result (λ bytes. IsRead (side (S.left program.old) (S.faults program.old)) (side (S.left program.new) (S.faults program.new)) bytes.items) }
    ensures stop { IfErr result (λ stop. ReadStops (side (S.left program.old) (S.faults program.old)) (side (S.left program.new) (S.faults program.new)) stop.status stop.refusal) }
{
    Ok(read_up_to(alloc, program, MOST_READ)?)
}

// The program's text: the one that is made, or the source's bytes.
fn program_text<S: Source>(
    alloc: Global,
    made: Option<Vec<u8>>,
    program: &mut S,
) -> Result<Vec<u8>, Stop>
    ensures ok { IfOk result (λ bytes. IsGiven (option_map (λ text. text.items) made) (side (S.left program.old) (S.faults program.old)) (side (S.left program.new) (S.faults program.new)) bytes.items) }
    ensures read { IfErr result (λ _. option_map (λ text. text.items) made ≡ None) }
    ensures stop { IfErr result (λ stop. ReadStops (side (S.left program.old) (S.faults program.old)) (side (S.left program.new) (S.faults program.new)) stop.status stop.refusal) }
{
    match made {
        Some(text) => Ok(text),
        None => read_program(alloc, program),
    }
}

/// Reads the words and the source, and loads the program and the query.
pub fn prepare<S: Source>(
    alloc: Global,
    words: &[String],
    program: &mut S,
) -> Result<Prepared, Stop>
    ensures ready { IfOk result (IsReady (bytes_of words.now) (side (S.left program.old) (S.faults program.old)) (side (S.left program.new) (S.faults program.new))) }
    ensures stop { IfErr result (λ stop. Stops (bytes_of words.now) (side (S.left program.old) (S.faults program.old)) (side (S.left program.new) (S.faults program.new)) stop.status stop.refusal) }
{
    let Asked {
        program: made,
        query,
        workers,
        budget,
        flags,
    } = read_asked(alloc, words)?;
    let bytes = program_text(alloc, made, program)?;
    let program = load_program(alloc, &bytes)?;
    match load_asked(alloc, program, &query) {
        Ok(loaded) => Ok(Prepared {
            loaded,
            workers,
            budget,
            flags,
        }),
        Err(stop) => Err(stop),
    }
}
