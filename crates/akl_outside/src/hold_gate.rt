//! A gate at which one worker waits for calls of the others.

use crate::traits::Gate;
use crate::waiting::wait_for;
use std::sync::atomic::{AtomicBool, AtomicU64, Ordering};

/// Holds the first call of one worker until so many calls with other workers' numbers have come, or until so many turns of
/// waiting have passed. It is for tests: nothing is proved of what it holds.
#[derive(Drop)]
pub struct HoldGate {
    worker: u32,
    others: u64,
    turns: u64,
    called: AtomicBool,
    // How many calls with other workers' numbers have come.
    others_came: AtomicU64,
}

impl HoldGate {
    pub fn new(worker: u32, others: u64, turns: u64) -> HoldGate {
        HoldGate {
            worker,
            others,
            turns,
            called: AtomicBool::new(false),
            others_came: AtomicU64::new(0),
        }
    }

    fn have_others_come(&self) -> bool {
        self.others_came.load(Ordering::SeqCst) >= self.others
    }
}

impl Gate for HoldGate {
    fn before_plan(&self, worker: u32) {
        if worker != self.worker {
            self.others_came.fetch_add(1, Ordering::SeqCst);
        } else if !self.called.swap(true, Ordering::SeqCst) {
            wait_for(self.turns, || self.have_others_come());
        }
    }
}
