//! The call of a batch.

ghost use Rattle.std.specs.Prelude.{◌≡◌, ◌≤◌, ◌+◌, ◌++◌, ◌∷◌, [], IfOk, IfErr, OnOk, length};
ghost use Rattle.akl_terms.specs.declared.program.Program.{Program};
ghost use Rattle.akl_run.specs.Words.{bytes_of};
ghost use Rattle.akl_run.specs.Commands.{side};
ghost use Rattle.akl_run.specs.Loads.{IsLoadedProgram};
ghost use Rattle.akl_batch.specs.Batches.{IsBatchReported, Stops};
ghost use Rattle.akl_batch.specs.Steps.{AreAnswersOf, AreGathered, IsStopped, IsWritten, StopsAs};
ghost use Rattle.akl_batch.specs.Text.{numbered, last_line};

use crate::reply::{Answer, BatchReport, Reply};
use crate::sharing::answer_all;
use akl_args::{queries_in, read_batch_words};
use akl_outside::{Gate, Sink, Source, write_all};
use akl_run::{Refusal, Status, Stop, load_program, read_program};
use std::alloc::{AllocError, Global};
use std::thread::Threads;

// Tests that a text is a program that is loaded.
fn check_program(alloc: Global, text: &[u8]) -> Result<(), Stop>
    requires { length text.now ≤ 1000001 }
    ensures program { OnOk result ((base : Program) × IsLoadedProgram text.now base) }
    ensures stop { IfErr result (StopsAs text.now) }
{
    load_program(alloc, text)?;
    Ok(())
}

// Reads the words and the source, and answers the queries.
fn work<R: Threads + Sync, S: Source, G: Gate>(
    rt: &R,
    alloc: Global,
    words: &[String],
    program: &mut S,
    gate: &G,
) -> Result<Vec<Answer>, Stop>
    ensures answers { IfOk result (λ answers. AreAnswersOf (bytes_of words.now) (side (S.left program.old) (S.faults program.old)) (side (S.left program.new) (S.faults program.new)) answers.items) }
    ensures stop { IfErr result (λ stop. Stops (bytes_of words.now) (side (S.left program.old) (S.faults program.old)) (side (S.left program.new) (S.faults program.new)) stop.status stop.refusal) }
{
    let options = match read_batch_words(alloc, words) {
        Ok(options) => options,
        Err(error) => return Err(Stop::words(error)),
    };
    let bytes = read_program(alloc, program)?;
    check_program(alloc, &bytes)?;
    let queries = queries_in(alloc, options.text.as_str().as_bytes())?;
    let workers = options.workers as usize;
    answer_all(rt, alloc, &bytes, &queries, workers, options.budget, gate)
}

// The report of a batch that ended before there was anything to write.
fn stopped(alloc: Global, stop: Stop) -> BatchReport
    ensures { IsStopped stop result }
{
    let Stop { status, refusal } = stop;
    BatchReport {
        status,
        refusal,
        replies: Vec::new(alloc),
        written: 0,
    }
}

// Adds a reply's text, behind a line with its number.
fn push_text(text: &mut Vec<u8>, number: usize, reply: &[u8]) -> Result<(), AllocError>
    ensures { OnOk result (text.new.items ≡ text.old.items ++ numbered number reply.now) }
{
    let alloc = *text.allocator();
    let head = format!(in alloc; "query {number}\n")?;
    text.extend_from_slice(head.as_bytes())?;
    text.extend_from_slice(reply)
}

// Adds the next answer: its text, and its reply.
fn push_answer(
    text: &mut Vec<u8>,
    replies: &mut Vec<Reply>,
    answer: Answer,
) -> Result<(), AllocError>
    ensures text { OnOk result (text.new.items ≡ text.old.items ++ numbered (length replies.old.items + 1) answer.text.items) }
    ensures reply { OnOk result (replies.new.items ≡ replies.old.items ++ answer.reply ∷ []) }
{
    let Answer { reply, text: lines } = answer;
    push_text(text, replies.len() + 1, &lines)?;
    replies.push(reply)?;
    Ok(())
}

// Adds the last line: how many replies there are.
fn push_count(text: &mut Vec<u8>, count: usize) -> Result<(), AllocError>
    ensures { OnOk result (text.new.items ≡ text.old.items ++ last_line count) }
{
    let alloc = *text.allocator();
    let line = format!(in alloc; "queries {count}\n")?;
    text.extend_from_slice(line.as_bytes())
}

// The replies, and the text of the batch.
fn gathered(alloc: Global, answers: Vec<Answer>) -> Result<(Vec<Reply>, Vec<u8>), AllocError>
    ensures { IfOk result (λ r. AreGathered answers.items r.0.items r.1.items) }
{
    let mut replies = Vec::new(alloc);
    let mut text = Vec::new(alloc);
    for answer in answers {
        push_answer(&mut text, &mut replies, answer)?;
    }
    push_count(&mut text, replies.len())?;
    Ok((replies, text))
}

// Writes the text of a batch, and reports it.
fn report_of<K: Sink>(replies: Vec<Reply>, text: &[u8], out: &mut K) -> BatchReport
    ensures { IsWritten replies.items text.now (side (K.written out.old) (K.faults out.old)) (side (K.written out.new) (K.faults out.new)) result }
{
    let (status, written) = match write_all(out, text) {
        Ok(()) => (Status::Done, text.len()),
        Err(short) => (Status::WriteFault, short.written),
    };
    BatchReport {
        status,
        refusal: Refusal::Nothing,
        replies,
        written: written as u64,
    }
}

/// Runs the queries of a batch over a program, and writes their replies.
///
/// The words are read by `akl_args::read_batch_words`, and the source has the program's text. The work is done in this order,
/// and the first refusal ends it: the words; the source, to its end or until it gave one byte more than a program may have; the
/// program, which is read, checked and loaded; the queries; the writing. At most as many queries as the words say are worked
/// at at the same time. Each is loaded over a load of the program of its own and run by one worker, within a budget of its own,
/// and its text is that of `run_akl` with no flags. The gate is called once before each, with its number, counted from 1.
///
/// - `Done` comes where the text of all replies was written: behind a line with the query's number its text, or a line that
///   says why it is refused; last their number. Each reply is its query's own, whatever the others are and do.
/// - `WriteFault` comes only where the sink failed: there are all replies then, and a front of the text was written.
/// - `Words` and `Program` come exactly where these are refused, `ReadFault` only where the source failed, and `NoMemory` only
///   for want of memory. There are no replies then, and nothing was written.
///
/// So the queries of accepted words over an accepted program are all answered, unless the source, the sink or memory fails.
/// `IsBatchReported` says all this, a field for a fact.
pub fn run_batch<R: Threads + Sync, S: Source, K: Sink, G: Gate>(
    rt: &R,
    alloc: Global,
    words: &[String],
    program: &mut S,
    out: &mut K,
    gate: &G,
) -> BatchReport
    ensures { IsBatchReported (record {
      words = bytes_of words.now;
      source = side (S.left program.old) (S.faults program.old);
      source_after = side (S.left program.new) (S.faults program.new);
      sink = side (K.written out.old) (K.faults out.old);
      sink_after = side (K.written out.new) (K.faults out.new);
      report = result;
    }) }
{
    let answers = match work(rt, alloc, words, program, gate) {
        Ok(answers) => answers,
        Err(stop) => return stopped(alloc, stop),
    };
    match gathered(alloc, answers) {
        Ok((replies, text)) => report_of(replies, &text, out),
        Err(error) => stopped(alloc, Stop::from(error)),
    }
}
