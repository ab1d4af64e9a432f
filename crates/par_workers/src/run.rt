//! A run of several workers to its end.

ghost use Rattle.std.specs.Prelude.{◌≡◌, ◌≤◌, [], length, IfOk};
ghost use Rattle.par_workers.specs.Runs.{HasRunMany, AreShared, HasGoneOn};

use crate::crew::{dismiss, hire, set_to_work};
use crate::shared::SharedRun;
use crate::signals::Signals;
use akl_model::Receipt;
use akl_outside::Gate;
use akl_terms::Program;
use scheduler::Scheduler;
use seq_engine::{End, run_on};
use std::alloc::{AllocError, Global};
use std::mem;
use std::sync::Wait;
use std::thread::Threads;
use step_commit::Core;
use task_pool::Pool;
use turn_lock::TurnLock;

/// A run that has ended.
#[derive(Drop)]
pub struct Finished {
    pub core: Core,
    /// What each worker keeps of its labels, the first worker first.
    pub receipts: Vec<Vec<Receipt>>,
    pub end: End,
}

/// Runs a core as the workers from 1 to this number, until no rule applies, or until all labels of the budget are made and
/// a rule still applies. It may wait. The gate is called by each worker before each planning.
///
/// Once the workers have ended, worker 1 goes on alone from the journal that they left. So the end is the same whatever stopped them.
pub fn run_many<R: Threads + Wait + Sync, G: Gate>(
    rt: &R,
    alloc: Global,
    program: &Program,
    core: Core,
    workers: u32,
    gate: &G,
) -> Result<Finished, AllocError>
    requires program { program.now ≡ core.table.program }
    requires workers { (1 ≤ workers) × (workers ≤ 16) × (core.workers ≡ workers) }
    requires begins { core.journal ≡ [] }
    ensures { IfOk result (HasRunMany core) }
{
    let (scheduler, receipts) = run_workers(rt, alloc, program, core, workers, gate)?;
    finish(alloc, program, scheduler, receipts)
}

// The part of a run that the workers share.
fn run_workers<R: Threads + Wait + Sync, G: Gate>(
    rt: &R,
    alloc: Global,
    program: &Program,
    core: Core,
    workers: u32,
    gate: &G,
) -> Result<(Scheduler, Vec<Vec<Receipt>>), AllocError>
    requires program { program.now ≡ core.table.program }
    requires workers { (1 ≤ workers) × (workers ≤ 16) × (core.workers ≡ workers) }
    requires begins { core.journal ≡ [] }
    ensures { IfOk result (λ r. AreShared core r.0.core r.1.items) }
{
    let mut hands = Pool::new(alloc, workers)?;
    let shared = SharedRun::new(alloc, core, &mut hands)?;
    let signals = Signals::new();
    let (lock, mut first) = TurnLock::new(alloc, shared)?;
    let mut crew = hire(alloc, &lock, &mut first, hands)?;
    set_to_work(
        rt,
        alloc,
        program,
        &lock,
        gate,
        &signals,
        crew.as_mut_slice(),
    );
    let mut receipts = Vec::new(alloc);
    dismiss(&lock, &mut first, crew, &mut receipts)?;
    Ok((lock.close(first).into_scheduler(), receipts))
}

// Worker 1 goes on alone.
fn finish(
    alloc: Global,
    program: &Program,
    scheduler: Scheduler,
    mut receipts: Vec<Vec<Receipt>>,
) -> Result<Finished, AllocError>
    requires program { program.now ≡ scheduler.core.table.program }
    requires some { 1 ≤ length receipts.items }
    ensures { IfOk result (HasGoneOn scheduler.core receipts.items) }
{
    let first = mem::replace(&mut receipts[0], Vec::new(alloc));
    let run = run_on(alloc, program, scheduler, first)?;
    receipts[0] = run.receipts;
    Ok(Finished {
        core: run.core,
        receipts,
        end: run.end,
    })
}
