//! A sink in memory.
ghost use Rattle.std.specs.Prelude.{◌≡◌, ◌↔◌, ◌⊎◌, ◌-◌, ◌<◌, ◌≤◌, ◌++◌, [], Some, Contains, length, take, min, IsErr, OnErr, IfOk};
ghost use Rattle.akl_outside.specs.Counts.{Rose};
ghost use Rattle.akl_outside.specs.Memory.{after_write, after_failed_write};

use crate::traits::{Failed, Sink};
use std::alloc::{AllocError, Global};
use std::marker::Model;

/// Takes bytes in pieces into room that was reserved before, and fails at chosen writes.
#[derive(Drop)]
pub struct MemorySink {
    bytes: Vec<u8>,
    piece: usize,
    room: usize,
    fails: Vec<u64>,
    calls: u64,
    faults: u64,
}

impl Model for MemorySink {
    ghost use Rattle.std.specs.Prelude.{◌<◌, ◌≤◌, vec_len, vec_capacity};
    ghost use Rattle.akl_outside.specs.Memory.{SinkState};

    ghost Value = { SinkState };

    ghost view = { λ s. record {
      written = s.bytes.items;
      piece = s.piece;
      room = s.room;
      fails = s.fails.items;
      calls = s.calls;
      faults = s.faults;
    } };

    ghost invariant = { λ s.
        (vec_len s.bytes ≤ s.room) × (s.room ≤ vec_capacity s.bytes) × (0 < s.piece) };
}

impl MemorySink {
    /// Reserves `room` bytes once. It takes at most `piece` bytes at each write, and `room` bytes
    /// in all. The writes are numbered from 0, and those whose number is in `fails` fail. The
    /// number of a write and the count of faults stay at `u64::MAX` once they reach it.
    pub fn new(
        alloc: Global,
        piece: usize,
        room: usize,
        fails: Vec<u64>,
    ) -> Result<MemorySink, AllocError>
        requires { 0 < piece }
        ensures { IfOk result (λ sink. sink ≡ record {
          written = [];
          piece = piece;
          room = room;
          fails = fails.items;
          calls = 0;
          faults = 0;
        }) }
    {
        let bytes = Vec::with_capacity(alloc, room)?;
        Ok(MemorySink {
            bytes,
            piece,
            room,
            fails,
            calls: 0,
            faults: 0,
        })
    }

    /// The bytes taken so far.
    pub fn bytes(&self) -> &[u8]
        ensures { result.now ≡ self.now.written }
    {
        &self.bytes
    }
}

impl Sink for MemorySink {
    ghost written = { λ s. Some s.written };

    ghost faults = { λ s. s.faults };

    ghost write_takes = { λ s bytes t. t ≡ after_write s bytes };

    ghost write_fails = { λ s t. t ≡ after_failed_write s };

    /// Fails exactly where the number of this write was chosen to, or the room was used up before.
    /// Else it takes as many bytes as the piece given, the sink's piece and the room left allow. It
    /// takes no memory.
    fn write(&mut self, piece: &[u8]) -> Result<usize, Failed>
        requires { 0 < length piece.now }
        // As of every sink.
        ensures some { IfOk result (λ n. 0 < n) }
        ensures count { IfOk result (λ n. n ≤ length piece.now) }
        ensures bytes { IfOk result (λ n. self.new.written ≡ self.old.written ++ take n piece.now) }
        ensures kept { OnErr result (self.new.written ≡ self.old.written) }
        ensures failed { OnErr result (Rose self.old.faults self.new.faults) }
        ensures never_falls { self.old.faults ≤ self.new.faults }
        ensures takes { IfOk result (λ n. self.new ≡ after_write self.old (take n piece.now)) }
        ensures fails { OnErr result (self.new ≡ after_failed_write self.old) }

        // Which writes fail, and how many bytes the others take.
        ensures chosen { IsErr result ↔ (Contains self.old.fails self.old.calls
            ⊎ (self.old.room ≤ length self.old.written)) }
        ensures size { IfOk result (λ n. n ≡ min (length piece.now)
            (min self.old.piece (self.old.room - length self.old.written))) }
    {
        let call = self.calls;
        self.calls = call.saturating_add(1);
        let room = self.room - self.bytes.len();
        if room == 0 || self.fails.contains(&call) {
            self.faults = self.faults.saturating_add(1);
            return Err(Failed);
        }
        let count = piece.len().min(self.piece.min(room));
        self.bytes.extend_from_slice(&piece[..count]).unwrap();
        Ok(count)
    }
}
