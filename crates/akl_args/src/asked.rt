//! What the options of the words ask for.

ghost use Rattle.std.specs.Prelude.{◌≡◌, ◌≤◌, IfOk, IfErr, IfSome, Some, ok_or, option_map};
ghost use Rattle.akl_args.specs.Asked.{rows_in, text_in, number_of, flag_in, flags_in, SaysFlags, job_in, asked_in};
ghost use Rattle.akl_args.specs.Settings.{most};
ghost use Rattle.akl_args.specs.Table.{IsRefusalOf};

use crate::flag::{Flag, Flags};
use crate::options::{Job, Options, WordsError};
use crate::setting::Setting;
use akl_terms::Text;
use clap::ArgMatches;
use std::alloc::{AllocError, Global};

// The text that is the value of an option.
fn text_in<'a>(matches: &ArgMatches<'a>, setting: Setting) -> Option<&'a str>
    ensures { option_map (λ text. text.now) result ≡ text_in setting (rows_in matches.now) }
{
    matches.get_str(setting.id())
}

// The number that is the value of an option.
fn number_of(matches: &ArgMatches<'_>, setting: Setting) -> Option<u64>
    ensures number { result ≡ number_of setting (rows_in matches.now) }
    ensures range { IfSome result (λ n. n ≤ most setting) }
{
    let text = text_in(matches, setting)?;
    setting.number(text)
}

// What is to be run, behind so many words.
fn job_in(alloc: Global, matches: &ArgMatches<'_>, count: usize) -> Result<Job, WordsError>
    ensures job { IfOk result (λ job. job_in (rows_in matches.now) ≡ Some job) }
    ensures refusal { IfErr result (IsRefusalOf (ok_or (job_in (rows_in matches.now)) (WordsError.Missing count))) }
{
    if let Some(text) = text_in(matches, Setting::Query) {
        return Ok(Job::Query(Text::from_str(alloc, text)?));
    }
    match number_of(matches, Setting::Generate) {
        Some(number) => Ok(Job::Generate(number)),
        None => Err(WordsError::Missing { at: count }),
    }
}

// Whether an option without a value came.
fn flag_in(matches: &ArgMatches<'_>, flag: Flag) -> bool
    requires { SaysFlags (rows_in matches.now) }
    ensures { result ≡ flag_in flag (rows_in matches.now) }
{
    matches.get_flag(flag.id())
}

// Which options without a value came.
fn flags_in(matches: &ArgMatches<'_>) -> Flags
    requires { SaysFlags (rows_in matches.now) }
    ensures { result ≡ flags_in (rows_in matches.now) }
{
    Flags {
        trace: flag_in(matches, Flag::Trace),
        why: flag_in(matches, Flag::Why),
        model: flag_in(matches, Flag::Model),
    }
}

/// What the options of so many words ask for. `Missing` is at the number of words, where nothing is to be run.
pub fn options_of(
    alloc: Global,
    matches: &ArgMatches<'_>,
    count: usize,
) -> Result<Options, WordsError>
    requires { SaysFlags (rows_in matches.now) }
    ensures options { IfOk result (λ options. asked_in (rows_in matches.now) count ≡ Ok options) }
    ensures refusal { IfErr result (IsRefusalOf (asked_in (rows_in matches.now) count)) }
{
    Ok(Options {
        job: job_in(alloc, matches, count)?,
        workers: number_of(matches, Setting::Workers).unwrap_or(1) as u32,
        budget: number_of(matches, Setting::Budget).unwrap_or(100_000),
        flags: flags_in(matches),
    })
}
