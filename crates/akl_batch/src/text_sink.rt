//! A sink in memory that takes all bytes.

ghost use Rattle.std.specs.Prelude.{◌≡◌, ◌<◌, ◌≤◌, ◌++◌, [], Some, length, take, OnErr, IfOk};
ghost use Rattle.akl_outside.specs.Counts.{Rose, next_count};

use akl_outside::{Failed, Sink};
use std::alloc::Global;

/// Keeps all bytes that it takes. A write fails only for want of memory.
#[derive(Drop)]
pub struct TextSink {
    bytes: Vec<u8>,
    faults: u64,
}

impl TextSink {
    /// Nothing was taken yet.
    pub fn new(alloc: Global) -> TextSink
        ensures { result.bytes.items ≡ [] }
    {
        TextSink {
            bytes: Vec::new(alloc),
            faults: 0,
        }
    }

    /// The bytes taken.
    pub fn into_bytes(self) -> Vec<u8>
        ensures { result ≡ self.bytes }
    {
        self.bytes
    }
}

impl Sink for TextSink {
    ghost written = { λ sink. Some sink.bytes.items };

    ghost faults = { λ sink. sink.faults };

    ghost write_takes = { λ sink bytes after. after.bytes.items ≡ sink.bytes.items ++ bytes };

    ghost write_fails = { λ sink after. after.bytes.items ≡ sink.bytes.items };

    fn write(&mut self, piece: &[u8]) -> Result<usize, Failed>
        requires { 0 < length piece.now }
        ensures some { IfOk result (λ n. 0 < n) }
        ensures count { IfOk result (λ n. n ≤ length piece.now) }
        ensures bytes { IfOk result (λ n. Some self.new.bytes.items ≡ Some (self.old.bytes.items ++ take n piece.now)) }
        ensures kept { OnErr result (Some self.new.bytes.items ≡ Some self.old.bytes.items) }
        ensures failed { OnErr result (Rose self.old.faults self.new.faults) }
        ensures never_falls { self.old.faults ≤ self.new.faults }
        ensures takes { IfOk result (λ n. self.new.bytes.items ≡ self.old.bytes.items ++ take n piece.now) }
        ensures fails { OnErr result (self.new.bytes.items ≡ self.old.bytes.items) }
    {
        match self.bytes.extend_from_slice(piece) {
            Ok(()) => Ok(piece.len()),
            Err(_) => {
                self.faults = self.faults.saturating_add(1);
                Err(Failed)
            }
        }
    }
}
