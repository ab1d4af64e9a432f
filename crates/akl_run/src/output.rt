//! Where the text of a run goes.

ghost use Rattle.std.specs.Prelude.{◌≡◌, OnOk, IfErr};
ghost use Rattle.akl_run.specs.Outputs.{outlet, HasAppended, HasBrokenOff, ShortOf};

use akl_outside::{Sink, write_all};
use std::alloc::AllocError;

/// Why a text isn't written whole.
#[derive(Clone, Copy)]
pub enum Unwritten {
    /// The sink failed.
    Fault,
    /// There was no memory for what comes next.
    Memory,
}

impl From<AllocError> for Unwritten {
    ghost use Rattle.akl_run.specs.declared.output.Unwritten.{Unwritten};

    ghost from_gives = { λ _ cause. cause ≡ Unwritten.Memory };

    fn from(_: AllocError) -> Self {
        Unwritten::Memory
    }
}

/// A sink to which a text is appended piece by piece.
#[derive(Drop)]
pub struct Output<'a, K: Sink> {
    sink: &'a mut K,
    written: u64,
}

impl<'a, K: Sink> Output<'a, K> {
    /// Nothing was written yet.
    pub fn new(sink: &'a mut K) -> Output<'a, K>
        ensures same { result.sink.ghost_name ≡ sink.entry.ghost_name }
        ensures start { outlet (K.written result.sink.now) (K.faults result.sink.now) result.written
            ≡ outlet (K.written sink.old) (K.faults sink.old) 0 }
    {
        Output { sink, written: 0 }
    }

    /// Appends a piece, or the front of it that the sink took before it failed. It takes no memory; a count of bytes
    /// that is too large counts as want of it.
    pub fn append(&mut self, piece: &[u8]) -> Result<(), Unwritten>
        ensures same { self.new.sink.ghost_name ≡ self.old.sink.ghost_name }
        ensures whole { OnOk result (HasAppended
            (outlet (K.written self.old.sink.now) (K.faults self.old.sink.now) self.old.written)
            (outlet (K.written self.new.sink.now) (K.faults self.new.sink.now) self.new.written) piece.now) }
        ensures broken { IfErr result (HasBrokenOff (ShortOf piece.now)
            (outlet (K.written self.old.sink.now) (K.faults self.old.sink.now) self.old.written)
            (outlet (K.written self.new.sink.now) (K.faults self.new.sink.now) self.new.written)) }
    {
        let Some(written) = self.written.checked_add(piece.len() as u64) else {
            return Err(Unwritten::Memory);
        };
        match write_all(self.sink, piece) {
            Ok(()) => {
                self.written = written;
                Ok(())
            }
            Err(short) => {
                self.written += short.written as u64;
                Err(Unwritten::Fault)
            }
        }
    }

    /// How many bytes were written.
    pub fn written(&self) -> u64
        ensures { result ≡ self.now.written }
    {
        self.written
    }
}
