//! A source in memory.
ghost use Rattle.std.specs.Prelude.{◌≡◌, ◌↔◌, ◌<◌, ◌≤◌, ◌++◌, [], Some, Contains, length, take, min, IsErr, OnErr, IfOk};
ghost use Rattle.std.specs.Io.{ReadsAtMost};
ghost use Rattle.akl_outside.specs.Counts.{Rose};
ghost use Rattle.akl_outside.specs.Memory.{after_failed_read, Gives};

use crate::traits::{Failed, Source};
use std::marker::Model;

/// Gives the bytes of a list in pieces, and fails at chosen reads.
#[derive(Drop)]
pub struct MemorySource {
    bytes: Vec<u8>,
    given: usize,
    piece: usize,
    fails: Vec<u64>,
    calls: u64,
    faults: u64,
}

impl Model for MemorySource {
    ghost use Rattle.std.specs.Prelude.{◌<◌, ◌≤◌, drop, vec_len};
    ghost use Rattle.akl_outside.specs.Memory.{SourceState};

    ghost Value = { SourceState };

    ghost view = { λ s. record {
      left = drop s.given s.bytes.items;
      piece = s.piece;
      fails = s.fails.items;
      calls = s.calls;
      faults = s.faults;
    } };

    ghost invariant = { λ s. (s.given ≤ vec_len s.bytes) × (0 < s.piece) };
}

impl MemorySource {
    /// Gives at most `piece` bytes at each read. The reads are numbered from 0, and those whose
    /// number is in `fails` fail. The number of a read and the count of faults stay at `u64::MAX`
    /// once they reach it.
    pub fn new(bytes: Vec<u8>, piece: usize, fails: Vec<u64>) -> MemorySource
        requires { 0 < piece }
        ensures { result ≡ record {
          left = bytes.items;
          piece = piece;
          fails = fails.items;
          calls = 0;
          faults = 0;
        } }
    {
        MemorySource {
            bytes,
            given: 0,
            piece,
            fails,
            calls: 0,
            faults: 0,
        }
    }
}

impl Source for MemorySource {
    ghost left = { λ s. Some s.left };

    ghost faults = { λ s. s.faults };

    ghost read_gives = { Gives };

    ghost read_fails = { λ s t. t ≡ after_failed_read s };

    /// Fails exactly where the number of this read was chosen to. Else it gives as many bytes as
    /// the buffer, the piece and what is left allow.
    fn read(&mut self, buffer: &mut [u8]) -> Result<usize, Failed>
        requires { 0 < length buffer.old }
        // As of every source.
        ensures count { ReadsAtMost result buffer.new }
        ensures bytes { IfOk result (λ n. self.old.left ≡ take n buffer.new ++ self.new.left) }
        ensures end { IfOk result (λ n. (n ≡ 0) ↔ (self.old.left ≡ [])) }
        ensures kept { OnErr result (self.new.left ≡ self.old.left) }
        ensures failed { OnErr result (Rose self.old.faults self.new.faults) }
        ensures never_falls { self.old.faults ≤ self.new.faults }
        ensures gives { IfOk result (λ n. Gives self.old (take n buffer.new) self.new) }
        ensures fails { OnErr result (self.new ≡ after_failed_read self.old) }

        // Which reads fail, and how many bytes the others give.
        ensures chosen { IsErr result ↔ Contains self.old.fails self.old.calls }
        ensures size { IfOk result (λ n. n ≡ min (length buffer.old)
            (min self.old.piece (length self.old.left))) }
    {
        let call = self.calls;
        self.calls = call.saturating_add(1);
        if self.fails.contains(&call) {
            self.faults = self.faults.saturating_add(1);
            return Err(Failed);
        }
        let left = &self.bytes[self.given..];
        let count = buffer.len().min(self.piece.min(left.len()));
        buffer[..count].copy_from_slice(&left[..count]);
        self.given += count;
        Ok(count)
    }
}
