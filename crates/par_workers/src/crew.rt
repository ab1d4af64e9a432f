//! Workers who are hired, set to work and dismissed.

ghost use Rattle.std.specs.Prelude.{◌≡◌, ◌≤◌, [], All, length, IfOk, OnOk};
ghost use Rattle.turn_lock.specs.Passes.{view, IsPassOf, HasNoTurn};
ghost use Rattle.par_workers.specs.Crews.{program_of, AreNumbered, AreOfJoined, lists};

use crate::shared::SharedRun;
use crate::signals::Signals;
use crate::worker::Worker;
use akl_model::Receipt;
use akl_outside::Gate;
use akl_terms::Program;
use std::alloc::{AllocError, Global};
use std::collections::VecDeque;
use std::sync::Wait;
use std::thread;
use std::thread::Threads;
use task_pool::Hand;
use turn_lock::{Pass, TurnLock};

/// A worker for each hand, of the numbers from 1 on, each with the pass of its number.
pub(crate) fn hire(
    alloc: Global,
    lock: &TurnLock<SharedRun>,
    first: &mut Pass<SharedRun>,
    hands: Vec<Hand>,
) -> Result<Vec<Worker>, AllocError>
    requires lock { IsPassOf lock.now first.old }
    requires first { ((view first.old).number ≡ 0) × HasNoTurn first.old }
    requires none { ((view first.old).split_count ≡ 0) × ((view first.old).joined ≡ []) × ((view first.old).seen ≡ []) }
    requires count { (length hands.items ≤ 16) × (length hands.items ≤ (view first.old).fixed.workers) }
    ensures lock { IsPassOf lock.now first.new }
    ensures first { ((view first.new).number ≡ 0) × HasNoTurn first.new }
    ensures none { IfOk result (λ v. ((view first.new).split_count ≡ length hands.items) × ((view first.new).joined ≡ [])) }
    ensures count { IfOk result (λ v. length v.items ≡ length hands.items) }
    ensures workers { IfOk result (λ v. All (λ w. IsPassOf lock.now w.pass) v.items) }
    ensures numbers { IfOk result (λ v. AreNumbered 1 v.items) }
{
    let mut workers = Vec::new(alloc);
    let mut number = 1u32;
    for hand in hands {
        workers.push(Worker {
            number,
            pass: lock.split(first),
            receipts: Vec::new(alloc),
            hand,
            tokens: VecDeque::new(alloc),
            room: 1,
        })?;
        number += 1;
    }
    Ok(workers)
}

/// Each worker works in a thread of its own, where one can be made, until the run has ended.
pub(crate) fn set_to_work<R: Threads + Wait + Sync, G: Gate>(
    rt: &R,
    alloc: Global,
    program: &Program,
    lock: &TurnLock<SharedRun>,
    gate: &G,
    signals: &Signals,
    workers: &mut [Worker],
)
    requires lock { All (λ w. IsPassOf lock.now w.pass) workers.old }
    requires program { All (λ w. program.now ≡ program_of w) workers.old }
    requires numbers { AreNumbered 1 workers.old }
    ensures lock { All (λ w. IsPassOf lock.now w.pass) workers.new }
    ensures numbers { AreNumbered 1 workers.new }
    ensures count { length workers.new ≡ length workers.old }
{
    let work = |_: usize, w: &mut Worker|
        requires { IsPassOf lock.now w.now.pass × (program.now ≡ program_of w.now) }
        ensures { IsPassOf lock.entry.now w.exit.now.pass × (w.exit.now.number ≡ w.entry.now.number) }
    { w.work(rt, alloc, program, lock, gate, signals) };
    thread::for_each_mut(rt, workers, 16, &work);
}

/// Joins the passes of the workers, the first worker's first, and keeps their receipts.
pub(crate) fn dismiss(
    lock: &TurnLock<SharedRun>,
    first: &mut Pass<SharedRun>,
    workers: Vec<Worker>,
    receipts: &mut Vec<Vec<Receipt>>,
) -> Result<(), AllocError>
    requires lock { IsPassOf lock.now first.old × All (λ w. IsPassOf lock.now w.pass) workers.items }
    requires first { ((view first.old).number ≡ 0) × HasNoTurn first.old }
    requires none { ((view first.old).joined ≡ []) × (receipts.old.items ≡ []) }
    requires numbers { AreNumbered 1 workers.items }
    ensures lock { IsPassOf lock.now first.new }
    ensures first { ((view first.new).number ≡ 0) × HasNoTurn first.new × ((view first.new).split_count ≡ (view first.old).split_count) }
    ensures count { OnOk result ((length (view first.new).joined ≡ length workers.items) × (length receipts.new.items ≡ length workers.items)) }
    ensures receipts { OnOk result (AreOfJoined 1 (view first.new).joined (lists receipts.new.items)) }
{
    for worker in workers {
        let Worker {
            number: _,
            pass,
            receipts: list,
            hand: _,
            tokens: _,
            room: _,
        } = worker;
        lock.join(first, pass);
        receipts.push(list)?;
    }
    Ok(())
}
