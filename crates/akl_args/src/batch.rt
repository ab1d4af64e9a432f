//! Reading the words of a batch.

ghost use Rattle.std.specs.Prelude.{◌≡◌, Ok, IfOk, IfErr, map, string_bytes};
ghost use Rattle.akl_args.specs.Batches.{name_for_query, word_for_query, has_too_many, first_crowded, batch_of, batch_reading, IsBatchWithinLimits};
ghost use Rattle.akl_args.specs.Limits.{IsWithinLimits};
ghost use Rattle.akl_args.specs.Table.{reading, IsRefusalOf};

use crate::flag::flag_named;
use crate::options::{Job, Options, WordsError};
use crate::queries::queries_in;
use crate::words::read_words;
use akl_terms::Text;
use std::alloc::{AllocError, Global};

/// The most queries of a batch.
const MOST_QUERIES: usize = 32;

/// What the words of a batch ask for.
#[derive(Drop)]
pub struct BatchOptions {
    /// The queries, a line each: `queries_in` gives them.
    pub text: Text,
    /// How many of them are run at the same time, at most: from 1 to 16; 1 where no word says it.
    pub workers: u32,
    /// The most steps of each run, from 1 to 4,000,000; 100,000 where no word says it.
    pub budget: u64,
}

// The name of an option of one query that stands for a batch's. `--` names none.
fn name_for_query(name: &str) -> &str
    ensures { result.now ≡ name_for_query name.now }
{
    match name {
        "--batch" => "--query",
        "--query" | "--generate" => "--",
        _ if flag_named(name).is_some() => "--",
        _ => name,
    }
}

// The word of one query that stands for a batch's.
fn word_for_query(alloc: Global, word: &str) -> Result<String, AllocError>
    ensures { IfOk result (λ changed. string_bytes changed ≡ word_for_query word.now) }
{
    match word.split_once('=') {
        Some((name, value)) => {
            let name = name_for_query(name);
            format!(in alloc; "{name}={value}")
        }
        None => String::from_str(alloc, name_for_query(word)),
    }
}

// The words of one query that stand for a batch's.
fn words_for_query(alloc: Global, words: &[String]) -> Result<Vec<String>, AllocError>
    ensures { IfOk result (λ changed. map string_bytes changed.items ≡ map word_for_query (map string_bytes words.now)) }
{
    let mut changed = Vec::new(alloc);
    for word in words {
        changed.push(word_for_query(alloc, word.as_str())?)?;
    }
    Ok(changed)
}

// Whether a word has more lines than a batch may have queries.
fn has_too_many(alloc: Global, word: &str) -> Result<bool, AllocError>
    ensures { IfOk result (λ too_many. too_many ≡ has_too_many word.now) }
{
    let lines = queries_in(alloc, word.as_bytes())?;
    Ok(lines.len() > MOST_QUERIES)
}

// The first word that has more lines than a batch may have queries.
fn first_crowded(alloc: Global, words: &[String]) -> Result<Option<usize>, AllocError>
    ensures { IfOk result (λ first. first ≡ first_crowded 0 (map string_bytes words.now)) }
{
    for (at, word) in words.iter().enumerate() {
        if has_too_many(alloc, word.as_str())? {
            return Ok(Some(at));
        }
    }
    Ok(None)
}

// What the words of a batch ask for as words of one query, whose text has the batch's queries.
fn read_as_query(alloc: Global, words: &[String]) -> Result<Options, WordsError>
    ensures options { IfOk result (λ options. reading (map word_for_query (map string_bytes words.now)) ≡ Ok options) }
    ensures limits { IfOk result IsWithinLimits }
    ensures refusal { IfErr result (IsRefusalOf (reading (map word_for_query (map string_bytes words.now)))) }
{
    let changed = words_for_query(alloc, words)?;
    read_words(alloc, &changed)
}

// The batch that is asked for so by so many words.
fn batch_of(options: Options, count: usize) -> Result<BatchOptions, WordsError>
    requires { IsWithinLimits options }
    ensures batch { result ≡ batch_of count options }
    ensures limits { IfOk result IsBatchWithinLimits }
{
    let Options {
        job,
        workers,
        budget,
        flags: _,
    } = options;
    match job {
        Job::Query(text) => Ok(BatchOptions {
            text,
            workers,
            budget,
        }),
        Job::Generate(_) => Err(WordsError::Missing { at: count }),
    }
}

/// What the words of a batch ask for, without the program's name.
///
/// The options are `--batch`, which must be there, `--workers` and `--budget`. They are read as `read_words` reads those of
/// one query, and are refused likewise; a text of more than 32 queries is refused as a `Value`.
pub fn read_batch_words(alloc: Global, words: &[String]) -> Result<BatchOptions, WordsError>
    ensures options { IfOk result (λ options. batch_reading (map string_bytes words.now) ≡ Ok options) }
    ensures limits { IfOk result IsBatchWithinLimits }
    ensures refusal { IfErr result (IsRefusalOf (batch_reading (map string_bytes words.now))) }
{
    match first_crowded(alloc, words)? {
        // It is no option and no number: where the words up to it are read, it holds the text.
        Some(at) => {
            read_as_query(alloc, &words[..=at])?;
            Err(WordsError::Value { at })
        }
        None => {
            let options = read_as_query(alloc, words)?;
            batch_of(options, words.len())
        }
    }
}
