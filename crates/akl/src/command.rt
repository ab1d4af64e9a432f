//! A whole command, over any source and sinks.
ghost use Rattle.std.specs.Prelude.{◌≡◌, ◌⊎◌, IfOk, IfErr, IfSome};
ghost use Rattle.std.specs.IoError.{error_kind};
ghost use Rattle.std.specs.Vec.Iter.{into_iter_items};
ghost use Rattle.std.specs.declared.io.ErrorKind.TheVariants.{OutOfMemory};
ghost use Rattle.akl_run.specs.Commands.{side};
ghost use Rattle.akl_run.specs.Words.{bytes_of};
ghost use Rattle.akl.specs.Words.{words_behind, is_batch};
ghost use Rattle.akl.specs.Notices.{notice_of};
ghost use Rattle.akl.specs.Endings.{Answers, AnswersBatch, IsDone, IsRefused};

use crate::ending::Ending;
use crate::notice::{HELP, VERSION, notice};
use akl_args::WordsError;
use akl_batch::run_batch;
use akl_outside::{NoGate, Sink, Source};
use akl_run::{Refusal, Status, run_akl};
use std::alloc::{AllocError, Global};
use std::env::Args;
use std::io;
use std::sync::Wait;
use std::thread::Threads;

/// Does what a command line asks: prints a notice, or runs a query or a batch of them. `given` are its words, the program's
/// name first, or why there are none: for want of memory, or since they are no text. Says how the process is to end. Where
/// there is no memory for the words, it is as with none.
pub fn run<R: Threads + Wait + Sync, S: Source, K: Sink, E: Sink>(
    rt: &R,
    alloc: Global,
    given: io::Result<Args>,
    program: &mut S,
    out: &mut K,
    errors: &mut E,
) -> Ending
    ensures refused { IfErr given (λ error. IsRefused (error_kind error)
        (side (E.written errors.old) (E.faults errors.old)) (side (E.written errors.new) (E.faults errors.new)) result) }
    ensures done { IfOk given (λ words. IsRefused OutOfMemory
        (side (E.written errors.old) (E.faults errors.old)) (side (E.written errors.new) (E.faults errors.new)) result
        ⊎ IsDone HELP.now VERSION.now (words_behind (into_iter_items words))
        (side (S.left program.old) (S.faults program.old)) (side (S.left program.new) (S.faults program.new))
        (side (K.written out.old) (K.faults out.old)) (side (K.written out.new) (K.faults out.new))
        (side (E.written errors.old) (E.faults errors.old)) (side (E.written errors.new) (E.faults errors.new)) result) }
    ensures source { IfOk given (λ words. IfSome (notice_of HELP.now VERSION.now (words_behind (into_iter_items words))) (λ _. program.new ≡ program.old)) }
{
    let given = match given {
        Ok(given) => given,
        Err(error) => return refuse_words(alloc, error.kind(), errors),
    };
    match all_words(alloc, given) {
        Ok(words) => run_words(rt, alloc, &words, program, out, errors),
        Err(_) => refuse_words(alloc, io::ErrorKind::OutOfMemory, errors),
    }
}

// The words in order. An `Err` comes for want of memory.
fn all_words(alloc: Global, given: Args) -> Result<Vec<String>, AllocError>
    ensures { IfOk result (λ words. words.items ≡ into_iter_items given) }
{
    let mut words = Vec::new(alloc);
    for word in given {
        words.push(word)?;
    }
    Ok(words)
}

// Does what the words behind the program's name, which is the first, ask.
fn run_words<R: Threads + Wait + Sync, S: Source, K: Sink, E: Sink>(
    rt: &R,
    alloc: Global,
    given: &[String],
    program: &mut S,
    out: &mut K,
    errors: &mut E,
) -> Ending
    ensures done { IsDone HELP.now VERSION.now (words_behind given.now)
        (side (S.left program.old) (S.faults program.old)) (side (S.left program.new) (S.faults program.new))
        (side (K.written out.old) (K.faults out.old)) (side (K.written out.new) (K.faults out.new))
        (side (E.written errors.old) (E.faults errors.old)) (side (E.written errors.new) (E.faults errors.new)) result }
    ensures source { IfSome (notice_of HELP.now VERSION.now (words_behind given.now)) (λ _. program.new ≡ program.old) }
{
    let words = behind_name(given);
    if let Some(text) = notice(words) {
        return Ending::of_notice(text, out, errors);
    }
    if is_batch(words) {
        return answer_batch(rt, alloc, words, program, out, errors);
    }
    answer_query(rt, alloc, words, program, out, errors)
}

// Runs the query of these words.
fn answer_query<R: Threads + Wait + Sync, S: Source, K: Sink, E: Sink>(
    rt: &R,
    alloc: Global,
    words: &[String],
    program: &mut S,
    out: &mut K,
    errors: &mut E,
) -> Ending
    ensures { Answers (bytes_of words.now)
        (side (S.left program.old) (S.faults program.old)) (side (S.left program.new) (S.faults program.new))
        (side (K.written out.old) (K.faults out.old)) (side (K.written out.new) (K.faults out.new))
        (side (E.written errors.old) (E.faults errors.old)) (side (E.written errors.new) (E.faults errors.new)) result }
{
    let report = run_akl(rt, alloc, words, program, out, &NoGate);
    Ending::of_command(alloc, report.status, &report.refusal, errors)
}

// Runs the batch of these words.
fn answer_batch<R: Threads + Sync, S: Source, K: Sink, E: Sink>(
    rt: &R,
    alloc: Global,
    words: &[String],
    program: &mut S,
    out: &mut K,
    errors: &mut E,
) -> Ending
    ensures { AnswersBatch (bytes_of words.now)
        (side (S.left program.old) (S.faults program.old)) (side (S.left program.new) (S.faults program.new))
        (side (K.written out.old) (K.faults out.old)) (side (K.written out.new) (K.faults out.new))
        (side (E.written errors.old) (E.faults errors.old)) (side (E.written errors.new) (E.faults errors.new)) result }
{
    let report = run_batch(rt, alloc, words, program, out, &NoGate);
    Ending::of_command(alloc, report.status, &report.refusal, errors)
}

// The words behind the first.
fn behind_name(given: &[String]) -> &[String]
    ensures { bytes_of result.now ≡ words_behind given.now }
{
    match given.split_first() {
        Some((_, words)) => words,
        None => &[],
    }
}

// Whether the first word names the option of a batch.
fn is_batch(words: &[String]) -> bool
    ensures { result ≡ is_batch (bytes_of words.now) }
{
    let Some(word) = words.first() else {
        return false;
    };
    match word.split_once('=') {
        Some((name, _)) => name == "--batch",
        None => word.as_str() == "--batch",
    }
}

// Says why there are no words: for want of memory, or since they are no text.
fn refuse_words<E: Sink>(alloc: Global, kind: io::ErrorKind, errors: &mut E) -> Ending
    ensures { IsRefused kind (side (E.written errors.old) (E.faults errors.old)) (side (E.written errors.new) (E.faults errors.new)) result }
{
    let (status, refusal) = match kind {
        io::ErrorKind::OutOfMemory => (Status::NoMemory, Refusal::Nothing),
        _ => (Status::Words, Refusal::Words(WordsError::Unknown { at: 0 })),
    };
    Ending::of_command(alloc, status, &refusal, errors)
}
