//! What a command line asks for, and why it is refused.

use crate::flag::Flags;
use akl_terms::Text;
use std::alloc::AllocError;

/// What is to be run.
#[derive(Drop)]
pub enum Job {
    /// This query, over the program of the standard input. The text isn't empty.
    Query(Text),
    /// The program and the query that are generated from this number, which is at most 4,294,967,295.
    Generate(u64),
}

/// What the words of a command line ask for.
#[derive(Drop)]
pub struct Options {
    /// What is to be run.
    pub job: Job,
    /// How many workers run it, from 1 to 16; 1 where no word says it.
    pub workers: u32,
    /// The most steps of the run, from 1 to 4,000,000; 100,000 where no word says it.
    pub budget: u64,
    /// Which options without a value are given.
    pub flags: Flags,
}

/// Why the words of a command line are refused. Words are numbered from 0.
#[derive(Clone, Copy, Debug)]
pub enum WordsError {
    /// The option in this word needs a value, and is the last word or has a word behind it that begins
    /// with `-`; or no word asks for anything to be run, and this is the number of words.
    Missing { at: usize },
    /// This word stands where an option must, and is none.
    Unknown { at: usize },
    /// The value in this word is empty, or isn't a number in the range of its option.
    Value { at: usize },
    /// The option in this word came before, or is the second of `--query` and `--generate`.
    Repeated { at: usize },
    /// There was no memory.
    Memory(AllocError),
}

impl From<AllocError> for WordsError {
    ghost use Rattle.std.specs.Prelude.{◌≡◌};
    ghost use Rattle.akl_args.specs.declared.options.WordsError.TheVariants as variants;

    ghost from_gives = { λ cause error. error ≡ variants.Memory cause };

    fn from(error: AllocError) -> Self {
        WordsError::Memory(error)
    }
}
