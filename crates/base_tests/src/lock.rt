//! A lock with a history: workers that take turns each find their own entries, in order, at the places that they had.

ghost use Rattle.std.specs.Prelude.{◌≡◌, ◌+◌, ◌<◌, [], All, length, vec_len, IfOk, OnOk};
ghost use Rattle.turn_lock.specs.Passes.{view, IsPassOf, HasNoTurn};

use std::alloc::{AllocError, Global};
use std::sync::Wait;
use std::thread;
use std::thread::Threads;
use turn_lock::{Booked, Pass, TurnLock};

#[derive(Clone, Copy, PartialEq, Debug)]
struct Entry {
    worker: u64,
    turn: u64,
}

#[derive(Drop)]
struct Log {
    title: u64,
    entries: Vec<Entry>,
}

impl Booked for Log {
    type Fixed = u64;

    type Entry = Entry;

    ghost fixed = { λ l. l.title };

    ghost history = { λ l. l.entries.items };

    ghost maker = { λ e. e.worker };
}

// A pass between its turns, the place of its last entry, and how often that was not there.
#[derive(Drop)]
struct Worker {
    number: u64,
    pass: Pass<Log>,
    turns: u64,
    last: usize,
    missed: u64,
    ghost numbered: { ((view pass).number ≡ number) × (0 < number) },
    ghost idle: { HasNoTurn pass },
}

impl Worker {
    fn take_turn<R: Wait>(&mut self, rt: &R, lock: &TurnLock<Log>)
        requires { IsPassOf lock.now self.old.pass }
        ensures { IsPassOf lock.now self.new.pass }
    {
        let (turn, mut log) = lock.lock(rt, &mut self.pass);
        let mine = Entry {
            worker: self.number,
            turn: self.turns,
        };
        if self.turns > 0 {
            let before = Entry {
                worker: self.number,
                turn: self.turns - 1,
            };
            if log.entries.get(self.last) != Some(&before) {
                self.missed = self.missed.wrapping_add(1);
            }
        }
        self.last = log.entries.len();
        let added = log.entries.push(mine).is_ok();
        lock.unlock(turn, log, &mut self.pass);
        if added {
            self.turns = self.turns.wrapping_add(1);
        }
    }

    fn take_turns<R: Wait>(&mut self, rt: &R, lock: &TurnLock<Log>, turns: u64)
        requires { IsPassOf lock.now self.old.pass }
        ensures { IsPassOf lock.now self.new.pass }
    {
        for _ in 0..turns {
            self.take_turn(rt, lock);
        }
    }
}

fn hire(
    alloc: Global,
    lock: &TurnLock<Log>,
    first: &mut Pass<Log>,
    count: u8,
) -> Result<Vec<Worker>, AllocError>
    requires lock { IsPassOf lock.now first.old }
    requires first { ((view first.old).number ≡ 0) × HasNoTurn first.old }
    requires none { ((view first.old).split_count ≡ 0) × ((view first.old).joined ≡ []) }
    ensures lock { IsPassOf lock.now first.new }
    ensures first { ((view first.new).number ≡ 0) × HasNoTurn first.new }
    ensures count { IfOk result (λ v. length (view first.new).joined + vec_len v ≡ (view first.new).split_count) }
    ensures workers { IfOk result (λ v. All (λ w. IsPassOf lock.now w.pass) v.items) }
{
    let mut workers = Vec::new(alloc);
    for number in 1..u64::from(count) + 1 {
        workers.push(Worker {
            number,
            pass: lock.split(first),
            turns: 0,
            last: 0,
            missed: 0,
        })?;
    }
    Ok(workers)
}

fn run<R: Threads + Wait + Sync>(rt: &R, lock: &TurnLock<Log>, workers: &mut [Worker], turns: u64)
    requires { All (λ w. IsPassOf lock.now w.pass) workers.old }
    ensures { All (λ w. IsPassOf lock.now w.pass) workers.new }
{
    let work = |_: usize, w: &mut Worker|
        requires { IsPassOf lock.now w.now.pass }
        ensures { IsPassOf lock.entry.now w.exit.now.pass }
    { w.take_turns(rt, lock, turns) };
    thread::for_each_mut(rt, workers, 16, &work);
}

fn dismiss(lock: &TurnLock<Log>, first: &mut Pass<Log>, mut workers: Vec<Worker>)
    requires lock { IsPassOf lock.now first.old × All (λ w. IsPassOf lock.now w.pass) workers.items }
    requires first { ((view first.old).number ≡ 0) × HasNoTurn first.old }
    requires count { length (view first.old).joined + vec_len workers ≡ (view first.old).split_count }
    ensures lock { IsPassOf lock.now first.new }
    ensures first { ((view first.new).number ≡ 0) × HasNoTurn first.new }
    ensures all { length (view first.new).joined ≡ (view first.new).split_count }
{
    while let Some(worker) = workers.pop() {
        let Worker {
            number: _,
            pass,
            turns: _,
            last: _,
            missed: _,
        } = worker;
        lock.join(first, pass);
    }
}

// So many workers take so many turns each.
fn work<R: Threads + Wait + Sync>(
    rt: &R,
    alloc: Global,
    lock: &TurnLock<Log>,
    first: &mut Pass<Log>,
    count: u8,
    turns: u64,
) -> Result<(), AllocError>
    requires lock { IsPassOf lock.now first.old }
    requires first { ((view first.old).number ≡ 0) × HasNoTurn first.old }
    requires none { ((view first.old).split_count ≡ 0) × ((view first.old).joined ≡ []) }
    ensures lock { OnOk result (IsPassOf lock.now first.new) }
    ensures first { OnOk result (((view first.new).number ≡ 0) × HasNoTurn first.new) }
    ensures all { OnOk result (length (view first.new).joined ≡ (view first.new).split_count) }
{
    let mut workers = hire(alloc, lock, first, count)?;
    run(rt, lock, workers.as_mut_slice(), turns);
    dismiss(lock, first, workers);
    Ok(())
}

// What they write.
fn written<R: Threads + Wait + Sync>(
    rt: &R,
    alloc: Global,
    count: u8,
    turns: u64,
) -> Result<Log, AllocError> {
    let log = Log {
        title: 7,
        entries: Vec::new(alloc),
    };
    let (lock, mut first) = TurnLock::new(alloc, log)?;
    work(rt, alloc, &lock, &mut first, count, turns)?;
    Ok(lock.close(first))
}

// How many entries of a worker there are, if their turns are in order.
fn turns_in_order(log: &Log, worker: u64) -> Option<u64> {
    let mut next = 0u64;
    for entry in log.entries.iter() {
        if entry.worker == worker {
            if entry.turn != next {
                return None;
            }
            next = next.wrapping_add(1);
        }
    }
    Some(next)
}

// Whether a log has the turns of all workers, in order.
fn has_all(log: &Log, count: u8, turns: u64) -> bool {
    for worker in 1..u64::from(count) + 1 {
        if turns_in_order(log, worker) != Some(turns) {
            return false;
        }
    }
    log.title == 7
}

#[test]
fn workers_find_their_entries_in_order(rt: HostRuntime) -> Result<(), AllocError> {
    for (count, turns) in [(1u8, 20u64), (2, 1000), (16, 500)] {
        let log = written(&rt, rt.alloc(), count, turns)?;
        assert!(rt; has_all(&log, count, turns), "{count} workers");
    }
    Ok(())
}
