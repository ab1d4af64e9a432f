//! The words of a command.

ghost use Rattle.std.specs.Prelude.{◌≡◌, IfOk, IfErr, option_map};
ghost use Rattle.akl_args.specs.Limits.{IsJobWithinLimits};
ghost use Rattle.akl_run.specs.Words.{bytes_of, query_in, program_in};
ghost use Rattle.akl_run.specs.Commands.{WordsStop};
ghost use Rattle.akl_run.specs.Steps.{IsAsked};

use crate::report::Status;
use crate::stop::Stop;
use akl_args::{Flags, Job, Options, read_words};
use akl_gen::generate;
use akl_syntax::check_query;
use std::alloc::{AllocError, Global};

/// What the words ask for: a query, by how many workers it is run, how many labels its run may make, and what else is shown.
#[derive(Drop)]
pub struct Asked {
    /// The program's text, where it is made; else it is read from the source.
    pub program: Option<Vec<u8>>,
    pub query: Vec<u8>,
    pub workers: u32,
    pub budget: u64,
    pub flags: Flags,
}

// The program's text, where it is made, and the query's.
fn texts_of(alloc: Global, job: &Job) -> Result<(Option<Vec<u8>>, Vec<u8>), AllocError>
    requires { IsJobWithinLimits job.now }
    ensures program { IfOk result (λ texts. option_map (λ text. text.items) texts.0 ≡ program_in job.now) }
    ensures query { IfOk result (λ texts. texts.1.items ≡ query_in job.now) }
{
    match job {
        Job::Query(text) => {
            let query = Vec::from_slice(alloc, text.as_str().as_bytes())?;
            Ok((None, query))
        }
        Job::Generate(number) => {
            let (program, query) = generate(alloc, *number)?;
            Ok((Some(program), query))
        }
    }
}

/// What the words ask for, where they are a command with a query that isn't too long.
pub fn read_asked(alloc: Global, words: &[String]) -> Result<Asked, Stop>
    ensures ok { IfOk result (IsAsked (bytes_of words.now)) }
    ensures stop { IfErr result (λ stop. WordsStop (bytes_of words.now) stop.status stop.refusal) }
{
    let options = match read_words(alloc, words) {
        Ok(options) => options,
        Err(error) => return Err(Stop::words(error)),
    };
    let (program, query) = texts_of(alloc, &options.job)?;
    match check_query(&query) {
        Ok(()) => Ok(Asked {
            program,
            query,
            workers: options.workers,
            budget: options.budget,
            flags: options.flags,
        }),
        Err(error) => Err(Stop::text(Status::Query, error)),
    }
}
