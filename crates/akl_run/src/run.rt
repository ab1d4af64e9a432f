//! The top call.

ghost use Rattle.std.specs.Prelude.{◌≡◌, IfOk, IfErr};
ghost use Rattle.box_tree.specs.Tables.{HasVariables, HasShownVariables};
ghost use Rattle.akl_run.specs.Words.{bytes_of};
ghost use Rattle.akl_run.specs.Commands.{side, Stops, IsReported};
ghost use Rattle.akl_run.specs.Evaluations.{HasEnded};
ghost use Rattle.akl_run.specs.Steps.{IsAnsweredAlone, IsRunAs, IsStopped, IsWritten, status_by_writing};

use crate::evaluate::{Evaluated, evaluate, evaluate_alone};
use crate::loaded::Loaded;
use crate::output::{Output, Unwritten};
use crate::prepare::prepare;
use crate::report::{Refusal, Report, Status};
use crate::stop::Stop;
use crate::writing::write_run;
use akl_outside::{Gate, Sink, Source};
use std::alloc::{AllocError, Global};
use std::sync::Wait;
use std::thread::Threads;

// Reads the words and the source, and runs the query.
fn work<R: Threads + Wait + Sync, S: Source, G: Gate>(
    rt: &R,
    alloc: Global,
    words: &[String],
    program: &mut S,
    gate: &G,
) -> Result<Evaluated, Stop>
    ensures run { IfOk result (λ e. IsRunAs (bytes_of words.now) (side (S.left program.old) (S.faults program.old)) (side (S.left program.new) (S.faults program.new)) e) }
    ensures stop { IfErr result (λ stop. Stops (bytes_of words.now) (side (S.left program.old) (S.faults program.old)) (side (S.left program.new) (S.faults program.new)) stop.status stop.refusal) }
{
    let prepared = prepare(alloc, words, program)?;
    evaluate(rt, alloc, prepared, gate)
}

/// The report of a command that ended before there was anything to write.
pub(crate) fn stopped(alloc: Global, stop: Stop) -> Report
    ensures { IsStopped stop result }
{
    let Stop { status, refusal } = stop;
    Report {
        status,
        refusal,
        journal: Vec::new(alloc),
        receipts: Vec::new(alloc),
        models: Vec::new(alloc),
        written: 0,
    }
}

fn status_of(ended: Result<Status, Unwritten>) -> Status
    ensures { result ≡ status_by_writing ended }
{
    match ended {
        Ok(status) => status,
        Err(Unwritten::Fault) => Status::WriteFault,
        Err(Unwritten::Memory) => Status::NoMemory,
    }
}

/// Writes the text of a run that has ended, and reports it.
pub(crate) fn report_of<K: Sink>(alloc: Global, run: Evaluated, sink: &mut K) -> Report
    requires { HasEnded run }
    ensures { IsWritten run (side (K.written sink.old) (K.faults sink.old)) (side (K.written sink.new) (K.faults sink.new)) result }
{
    let mut out = Output::new(sink);
    let ended = write_run(alloc, &run, &mut out);
    Report {
        status: status_of(ended),
        refusal: Refusal::Nothing,
        written: out.written(),
        journal: run.core.into_journal(),
        receipts: run.receipts,
        models: run.models,
    }
}

/// Runs a loaded query as worker 1 alone, and writes its text with no flags. Where memory is wanting in its run nothing was
/// written.
pub fn answer_alone<K: Sink>(
    alloc: Global,
    loaded: Loaded,
    budget: u64,
    sink: &mut K,
) -> Result<Report, AllocError>
    requires variables { HasVariables loaded.program loaded.query loaded.first_variable }
    requires shown { HasShownVariables loaded.query }
    ensures { IfOk result (IsAnsweredAlone loaded budget (side (K.written sink.old) (K.faults sink.old)) (side (K.written sink.new) (K.faults sink.new))) }
{
    let run = evaluate_alone(alloc, loaded, budget)?;
    Ok(report_of(alloc, run, sink))
}

/// Runs the query of a command line over a program, and writes its labels, where a trace is asked, the answers, with their
/// models where these are asked, what a suspended run waits on, where this is asked, and the outcome.
///
/// The words are read by `akl_args::read_words`, and the source has the program's text. The work is done
/// in this order, and the first refusal ends it: the words; the query's length; the source, to its end or
/// until it gave one byte more than a program may have; the program, which is read, checked and loaded, its inline
/// choices as definitions;
/// the query, likewise; the run, until no rule applies or as many labels as the budget are made; the models of its answers,
/// where they are asked; the writing.
/// The text is written as it is made, a line of the trace at a time, each answer, each root box that waits, and the outcome,
/// so that only one answer's text is held. With `--generate` the program and the query are made by `akl_gen::generate`, and the
/// source isn't read.
///
/// - `Done`, `Failed`, `Suspended` and `Budget` are the outcome of the answered journal, and the bytes
///   appended to the sink are the text of its last configuration's answers and this outcome. An answer
///   whose lines have more than a million bytes has one line in their place. Where models are asked, the report has a model
///   of each answer, in order, and its lines come behind the answer's. Where it is asked why, and the outcome is
///   `Suspended`, each root box that is no answer says for each of its goals on which variables it waits.
/// - `Words` comes exactly where the words are refused, and `Program` and `Query` exactly where that
///   text is, with the cause.
/// - `ReadFault` comes only where the source failed, and `WriteFault` only where the sink failed: the journal
///   and the models are the run's then, and a front of its text was written.
/// - `NoMemory` comes only for want of memory. Either nothing is answered and nothing was written, or the run
///   had ended, and its models were made: then the journal and the models are the run's, and a front of its text was
///   written, without the outcome's line.
///   Where no more bytes can be counted it comes too.
///
/// So an accepted query over an accepted program has one of the four outcomes, unless the source, the sink or memory
/// fails. `IsReported` says all this, a field for a fact.
///
/// The run takes as many workers as the words ask for. With one it never waits, and the gate isn't called. Several may wait for
/// one another, and each calls the gate before each planning; which derivation comes is then by their turns. The journal's
/// labels are by the workers 1 to this number, and the report's receipts are a list for each of them, worker 1's first.
pub fn run_akl<R: Threads + Wait + Sync, S: Source, K: Sink, G: Gate>(
    rt: &R,
    alloc: Global,
    words: &[String],
    program: &mut S,
    out: &mut K,
    gate: &G,
) -> Report
    ensures { IsReported (record {
      words = bytes_of words.now;
      source = side (S.left program.old) (S.faults program.old);
      source_after = side (S.left program.new) (S.faults program.new);
      sink = side (K.written out.old) (K.faults out.old);
      sink_after = side (K.written out.new) (K.faults out.new);
      report = result;
    }) }
{
    match work(rt, alloc, words, program, gate) {
        Err(stop) => stopped(alloc, stop),
        Ok(evaluated) => report_of(alloc, evaluated, out),
    }
}
