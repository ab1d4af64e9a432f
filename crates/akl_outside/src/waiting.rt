//! Waiting for what another thread does.

use crossbeam_utils::Backoff;

/// Waits for at most so many turns, and says whether what is awaited came.
pub(crate) fn wait_for<F: Fn() -> bool>(turns: u64, came: F) -> bool
    requires { F.IsAlwaysCallable came }
{
    let backoff = Backoff::new();
    for _ in 0..turns {
        if came() {
            return true;
        }
        backoff.snooze();
    }
    came()
}
