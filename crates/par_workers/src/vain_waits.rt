//! When a worker gives way, since the lock and not the planning takes the time.

use crate::signals::Signals;
use std::sync::Wait;
use std::time::Duration;

// A worker gives way where it waited for the lock longer than it planned so often in a row.
const MOST: u32 = 16;

// The first time for which it gives way and the longest, in milliseconds. Each is twice as long as the one before.
const FIRST_TIME: u64 = 1;

const LONGEST_TIME: u64 = 64;

/// How often in a row a worker waited for the lock longer than it planned, by the turns that others took meanwhile.
#[derive(Drop)]
pub(crate) struct VainWaits {
    count: u32,
    // For how long it gives way next.
    millis: u64,
    // How many turns were taken when the worker last ended one, and when it last asked for the lock.
    left: u64,
    asked: u64,
}

impl VainWaits {
    /// None yet.
    pub(crate) fn new() -> VainWaits {
        VainWaits {
            count: 0,
            millis: FIRST_TIME,
            left: 0,
            asked: 0,
        }
    }

    /// The worker asks for the lock.
    pub(crate) fn ask(&mut self, signals: &Signals) {
        self.asked = signals.turns();
    }

    /// It has the lock.
    pub(crate) fn have(&mut self, signals: &Signals) {
        let waited = signals.turns().saturating_sub(self.asked);
        let planned = self.asked.saturating_sub(self.left);
        self.count = if waited > planned {
            self.count.saturating_add(1)
        } else {
            0
        };
    }

    /// It ends its turn.
    pub(crate) fn leave(&mut self, signals: &Signals) {
        signals.count_turn();
        self.left = signals.turns();
    }

    /// Whether it is to give way.
    pub(crate) fn are_many(&self) -> bool {
        self.count >= MOST
    }

    /// It gives way, the longer, the more often.
    pub(crate) fn give_way<R: Wait>(&mut self, rt: &R, signals: &Signals) {
        signals.step_aside(rt, Duration::from_millis(self.millis));
        self.millis = self.millis.saturating_mul(2).min(LONGEST_TIME);
        self.count = 0;
        self.left = signals.turns();
    }
}
