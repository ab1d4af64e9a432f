//! A gate at which a worker waits for another one.

use crate::traits::Gate;
use crate::waiting::wait_for;
use std::sync::atomic::{AtomicBool, AtomicU64, Ordering};

/// Holds the first call until a call with another worker's number has come, or until so many turns of waiting have passed.
/// It is for tests: nothing is proved of what it holds.
#[derive(Drop)]
pub struct CrossGate {
    turns: u64,
    // The number of the first caller and one more, or 0.
    first: AtomicU64,
    other_came: AtomicBool,
    crossed: AtomicBool,
}

impl CrossGate {
    pub fn new(turns: u64) -> CrossGate {
        CrossGate {
            turns,
            first: AtomicU64::new(0),
            other_came: AtomicBool::new(false),
            crossed: AtomicBool::new(false),
        }
    }

    /// Whether the first call was let go by another worker's call.
    pub fn crossed(&self) -> bool {
        self.crossed.load(Ordering::SeqCst)
    }
}

impl Gate for CrossGate {
    fn before_plan(&self, worker: u32) {
        let caller = u64::from(worker) + 1;
        match self
            .first
            .compare_exchange(0, caller, Ordering::SeqCst, Ordering::SeqCst)
        {
            Ok(_) => {
                if wait_for(self.turns, || self.other_came.load(Ordering::SeqCst)) {
                    self.crossed.store(true, Ordering::SeqCst);
                }
            }
            Err(first) => {
                if first != caller {
                    self.other_came.store(true, Ordering::SeqCst);
                }
            }
        }
    }
}
