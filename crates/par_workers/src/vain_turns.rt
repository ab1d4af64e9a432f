//! How long a worker waits that finds nothing to do.

use crate::signals::Signals;
use crossbeam_utils::Backoff;
use std::sync::Wait;
use std::time::Duration;

// So often a worker only looks away for a moment, before it sleeps.
const MOMENTS: u32 = 4;

// The first sleep and the longest, in microseconds. Each is twice as long as the one before.
const FIRST_SLEEP: u64 = 50;

const LONGEST_SLEEP: u64 = 6_400;

/// How often a worker found nothing to do since it last found something, and whether it is to wait for that outside of the
/// lock: the longer, the more often.
#[derive(Drop)]
pub(crate) struct VainTurns {
    backoff: Backoff,
    count: u32,
    waits: bool,
    // How long the next sleep is.
    micros: u64,
    // How often it was rung for those who have nothing to do when this worker last looked.
    rings: u64,
}

impl VainTurns {
    /// None yet.
    pub(crate) fn new() -> VainTurns {
        VainTurns {
            backoff: Backoff::new(),
            count: 0,
            waits: false,
            micros: FIRST_SLEEP,
            rings: 0,
        }
    }

    /// Whether the worker is to wait before its next turn.
    pub(crate) fn is_waiting(&self) -> bool {
        self.waits
    }

    /// Waits for a moment, or sleeps where there were enough of these.
    pub(crate) fn wait<R: Wait>(&mut self, rt: &R, signals: &Signals) {
        if !self.backoff.is_completed() {
            self.backoff.snooze();
            return;
        }
        if self.count > MOMENTS {
            signals.sleep_idle(rt, self.rings, Duration::from_micros(self.micros));
            self.micros = self.micros.saturating_mul(2).min(LONGEST_SLEEP);
        }
        self.waits = false;
    }

    /// The worker found something.
    pub(crate) fn end(&mut self, signals: &Signals) {
        if self.count > 0 {
            signals.end_idling();
        }
        self.count = 0;
        self.waits = false;
        self.micros = FIRST_SLEEP;
    }

    /// It found nothing once more. After the first time it looks again at once.
    pub(crate) fn add(&mut self, signals: &Signals) {
        if self.count == 0 {
            signals.begin_idling();
        }
        self.rings = signals.rings();
        self.waits = self.count > 0;
        self.count = self.count.saturating_add(1);
        self.backoff.reset();
    }
}
