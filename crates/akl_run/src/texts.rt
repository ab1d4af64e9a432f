//! A query over a program, by their texts.

ghost use Rattle.std.specs.Prelude.{◌≡◌, ◌≤◌, IfOk, IfErr, length};
ghost use Rattle.akl_run.specs.Commands.{side};
ghost use Rattle.akl_run.specs.Replays.{MayBegin};
ghost use Rattle.akl_run.specs.Steps.{IsAnswered, IsReportOf};
ghost use Rattle.akl_run.specs.Evaluations.{StopsRun};

use crate::evaluate::evaluate;
use crate::loaded::load_texts;
use crate::prepare::Prepared;
use crate::report::Report;
use crate::run::{report_of, stopped};
use crate::stop::Stop;
use akl_args::Flags;
use akl_outside::{Gate, Sink};
use std::alloc::Global;
use std::sync::Wait;
use std::thread::Threads;

/// A query over a program, by their texts, and how it is run.
#[derive(Clone, Copy)]
pub struct TextQuery<'a> {
    pub program: &'a [u8],
    pub query: &'a [u8],
    /// By how many workers it is run, 1 to 16.
    pub workers: u32,
    /// How many labels its run may make.
    pub budget: u64,
    /// What else is shown of it.
    pub flags: Flags,
}

// Runs a query that is ready to its end, and writes its text.
fn answer<R: Threads + Wait + Sync, K: Sink, G: Gate>(
    rt: &R,
    alloc: Global,
    prepared: Prepared,
    out: &mut K,
    gate: &G,
) -> Result<Report, Stop>
    requires loaded { MayBegin prepared.loaded }
    requires workers { (1 ≤ prepared.workers) × (prepared.workers ≤ 16) }
    ensures answered { IfOk result (IsAnswered prepared.loaded prepared.workers prepared.budget prepared.flags
        (side (K.written out.old) (K.faults out.old)) (side (K.written out.new) (K.faults out.new))) }
    ensures stop { IfErr result StopsRun }
    ensures unwritten { IfErr result (λ _. out.new ≡ out.old) }
{
    let run = evaluate(rt, alloc, prepared, gate)?;
    Ok(report_of(alloc, run, out))
}

/// Runs a query over a program, both by their texts, and writes its text, as `run_akl` does for the query of a command line over
/// the text of its source.
pub fn run_texts<R: Threads + Wait + Sync, K: Sink, G: Gate>(
    rt: &R,
    alloc: Global,
    asked: TextQuery<'_>,
    out: &mut K,
    gate: &G,
) -> Report
    requires program { length asked.program.now ≤ 1000001 }
    requires workers { (1 ≤ asked.workers) × (asked.workers ≤ 16) }
    ensures { IsReportOf asked.entry.program.now asked.entry.query.now asked.entry.workers asked.entry.budget asked.entry.flags
        (side (K.written out.old) (K.faults out.old)) (side (K.written out.new) (K.faults out.new)) result }
{
    let loaded = match load_texts(alloc, asked.program, asked.query) {
        Ok(loaded) => loaded,
        Err(stop) => return stopped(alloc, stop),
    };
    let prepared = Prepared {
        loaded,
        workers: asked.workers,
        budget: asked.budget,
        flags: asked.flags,
    };
    match answer(rt, alloc, prepared, out, gate) {
        Ok(report) => report,
        Err(stop) => stopped(alloc, stop),
    }
}
