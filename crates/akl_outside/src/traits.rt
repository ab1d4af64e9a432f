//! The traits of the outside.
ghost use Rattle.std.specs.Prelude.{◌≡◌, ◌↔◌, ◌<◌, ◌≤◌, ℕ, List, [], Option, length, take, OnErr, IfOk, IfSome};
ghost use Rattle.std.specs.Io.{ReadsAtMost};
ghost use Rattle.std.specs.Io.KnownBytes.{prepend_known, append_known};
ghost use Rattle.akl_outside.specs.Counts.{Rose};

/// A read or a write that failed. The object's count of faults says so too.
#[derive(Drop)]
pub struct Failed;

/// A place that bytes come from.
pub trait Source {
    // The bytes still to come, where the source tells them. No call changes whether it does.
    ghost left: { Self → Option (List ℕ) };

    // How many reads have failed.
    ghost faults: { Self → ℕ };

    // Whether a read that gives these bytes can lead from the one state to the other.
    ghost read_gives: { Self → List ℕ → Self → Type 0 };

    // Whether a read that fails can lead from the one state to the other.
    ghost read_fails: { Self → Self → Type 0 };

    /// Puts some bytes at the front of the buffer and gives their number; what follows them there
    /// is left open. `Ok(0)` is the end. After `Failed` nothing is known of the buffer.
    fn read(&mut self, buffer: &mut [u8]) -> Result<usize, Failed>
        requires { 0 < length buffer.old }
        ensures count { ReadsAtMost result buffer.new }
        ensures bytes { IfOk result (λ n.
            left self.old ≡ prepend_known (take n buffer.new) (left self.new)) }
        ensures end { IfOk result (λ n. IfSome (left self.old) (λ bytes. (n ≡ 0) ↔ (bytes ≡ []))) }
        ensures kept { OnErr result (left self.new ≡ left self.old) }
        ensures failed { OnErr result (Rose (faults self.old) (faults self.new)) }
        ensures never_falls { faults self.old ≤ faults self.new }
        ensures gives { IfOk result (λ n. read_gives self.old (take n buffer.new) self.new) }
        ensures fails { OnErr result (read_fails self.old self.new) };
}

/// A place that bytes go to.
pub trait Sink {
    // The bytes taken so far, where the sink tells them. No call changes whether it does.
    ghost written: { Self → Option (List ℕ) };

    // How many writes have failed.
    ghost faults: { Self → ℕ };

    // Whether a write that takes these bytes can lead from the one state to the other.
    ghost write_takes: { Self → List ℕ → Self → Type 0 };

    // Whether a write that fails can lead from the one state to the other.
    ghost write_fails: { Self → Self → Type 0 };

    /// Takes at least one byte from the front of the piece and gives the number of bytes taken.
    fn write(&mut self, piece: &[u8]) -> Result<usize, Failed>
        requires { 0 < length piece.now }
        ensures some { IfOk result (λ n. 0 < n) }
        ensures count { IfOk result (λ n. n ≤ length piece.now) }
        ensures bytes { IfOk result (λ n.
            written self.new ≡ append_known (written self.old) (take n piece.now)) }
        ensures kept { OnErr result (written self.new ≡ written self.old) }
        ensures failed { OnErr result (Rose (faults self.old) (faults self.new)) }
        ensures never_falls { faults self.old ≤ faults self.new }
        ensures takes { IfOk result (λ n. write_takes self.old (take n piece.now) self.new) }
        ensures fails { OnErr result (write_fails self.old self.new) };
}

/// A place where a test can hold a worker. It changes nothing that a worker computes.
pub trait Gate: Sync {
    /// Called by each worker before each planning, while it has no turn of the lock.
    fn before_plan(&self, worker: u32);
}

/// Holds nobody.
#[derive(Drop)]
pub struct NoGate;

impl Gate for NoGate {
    fn before_plan(&self, _worker: u32) {}
}
