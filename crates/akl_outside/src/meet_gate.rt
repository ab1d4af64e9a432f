//! A gate at which workers wait for one another.

ghost use Rattle.std.specs.Prelude.{◌<◌, ◌≤◌};

use crate::traits::Gate;
use crate::waiting::wait_for;
use std::sync::atomic::{AtomicBool, AtomicU64, Ordering};

/// Holds the first call with each worker's number, from 1 to 16, until calls with so many different numbers have come, or
/// until so many turns of waiting have passed. It is for tests: nothing is proved of what it holds.
#[derive(Drop)]
pub struct MeetGate {
    workers: u32,
    turns: u64,
    // Bit k is set once worker k + 1 has called.
    callers: AtomicU64,
    given_up: AtomicBool,
}

impl MeetGate {
    pub fn new(workers: u32, turns: u64) -> MeetGate
        requires { (0 < workers) × (workers ≤ 16) }
    {
        MeetGate {
            workers,
            turns,
            callers: AtomicU64::new(0),
            given_up: AtomicBool::new(false),
        }
    }

    /// Whether calls with so many different numbers have come, and none was let go by its turns.
    pub fn met(&self) -> bool {
        self.have_all_come() && !self.given_up.load(Ordering::SeqCst)
    }

    fn have_all_come(&self) -> bool {
        self.callers.load(Ordering::SeqCst).count_ones() >= self.workers
    }

    // Notes the caller, and says whether this was its first call.
    fn is_first_call(&self, bit: u64) -> bool {
        self.callers.fetch_or(bit, Ordering::SeqCst) & bit == 0
    }
}

impl Gate for MeetGate {
    fn before_plan(&self, worker: u32) {
        if worker == 0 || worker > 16 {
            return;
        }
        if !self.is_first_call(1u64 << (worker - 1)) {
            return;
        }
        if !wait_for(self.turns, || self.have_all_come()) {
            self.given_up.store(true, Ordering::SeqCst);
        }
    }
}
