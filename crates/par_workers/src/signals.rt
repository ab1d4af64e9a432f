//! What the workers of a run tell one another outside of the lock.

use crossbeam_utils::CachePadded;
use std::sync::Wait;
use std::sync::atomic::{AtomicU64, Ordering};
use std::time::Duration;

/// Whether the run has ended, how many workers have nothing to do, how many are at work, and how many turns were taken.
///
/// These are hints: nothing that is proved of a run rests on them.
#[derive(Drop)]
pub(crate) struct Signals {
    ended: CachePadded<AtomicU64>,
    idle: CachePadded<AtomicU64>,
    rings: CachePadded<AtomicU64>,
    awake: CachePadded<AtomicU64>,
    turns: CachePadded<AtomicU64>,
}

impl Signals {
    /// A run before its first turn.
    pub(crate) fn new() -> Signals {
        Signals {
            ended: CachePadded::new(AtomicU64::new(0)),
            idle: CachePadded::new(AtomicU64::new(0)),
            rings: CachePadded::new(AtomicU64::new(0)),
            awake: CachePadded::new(AtomicU64::new(0)),
            turns: CachePadded::new(AtomicU64::new(0)),
        }
    }

    /// Whether the run has ended.
    pub(crate) fn have_ended(&self) -> bool {
        self.ended.load(Ordering::SeqCst) != 0
    }

    /// The run ends, and those who sleep wake.
    pub(crate) fn end(&self) {
        self.ended.store(1, Ordering::SeqCst);
        self.ended.wake_all();
        self.ring();
        self.rings.wake_all();
    }

    /// A worker begins its work.
    pub(crate) fn begin_work(&self) {
        self.awake.fetch_add(1, Ordering::SeqCst);
    }

    /// A worker has nothing to do from now on.
    pub(crate) fn begin_idling(&self) {
        self.idle.fetch_add(1, Ordering::SeqCst);
    }

    /// It has something to do again.
    pub(crate) fn end_idling(&self) {
        self.idle.fetch_sub(1, Ordering::SeqCst);
    }

    /// Whether a worker has nothing to do.
    pub(crate) fn is_anyone_idle(&self) -> bool {
        self.idle.load(Ordering::SeqCst) != 0
    }

    /// There is something to do for one that has nothing to do.
    pub(crate) fn ring(&self) {
        self.rings.fetch_add(1, Ordering::SeqCst);
        self.rings.wake_one();
    }

    /// How often it was rung.
    pub(crate) fn rings(&self) -> u64 {
        self.rings.load(Ordering::SeqCst)
    }

    /// A worker that has nothing to do sleeps for so long, or until it is rung more often than this.
    pub(crate) fn sleep_idle<R: Wait>(&self, rt: &R, rings: u64, time: Duration) {
        self.rings
            .park_timeout(rt, (rings & 0xffff_ffff) as u32, time);
    }

    /// A turn was taken.
    pub(crate) fn count_turn(&self) {
        self.turns.fetch_add(1, Ordering::SeqCst);
    }

    /// How many turns were taken by now.
    pub(crate) fn turns(&self) -> u64 {
        self.turns.load(Ordering::SeqCst)
    }

    /// A worker steps aside for so long, or until the run ends, if another is at work.
    pub(crate) fn step_aside<R: Wait>(&self, rt: &R, time: Duration) {
        if self.awake.fetch_sub(1, Ordering::SeqCst) > 1 {
            self.ended.park_timeout(rt, 0, time);
        }
        self.awake.fetch_add(1, Ordering::SeqCst);
    }
}
