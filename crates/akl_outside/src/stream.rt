//! A source and a sink over std's readers and writers.
ghost use Rattle.std.specs.Prelude.{◌≡◌, ◌↔◌, ◌<◌, ◌≤◌, [], if◌then◌else◌, length, take, is_err, is_some, OnErr, IfOk, IfSome};
ghost use Rattle.std.specs.Result.{result_ok};
ghost use Rattle.std.specs.Io.{ReadsAtMost};
ghost use Rattle.std.specs.Io.KnownBytes.{prepend_known, append_known};
ghost use Rattle.akl_outside.specs.Counts.{Rose, next_count};
ghost use Rattle.akl_outside.specs.Answers.{taken_by};

use crate::traits::{Failed, Sink, Source};
use std::io;
use std::io::{Read, Write};
use std::marker::Model;
use std::snapshot::Snapshot;

// Passes an answer of a stream on, and counts that there is none.
fn counted(answer: Option<usize>, faults: &mut u64) -> Result<usize, Failed>
    ensures answer { result_ok result ≡ answer }
    ensures count { faults.new ≡ (if is_some answer then faults.old else next_count faults.old) }
{
    if answer.is_none() {
        *faults = faults.saturating_add(1);
    }
    answer.ok_or(Failed)
}

// How many bytes a writer took, where it answered so and took some.
fn taken(answer: io::Result<usize>) -> Option<usize>
    ensures { result ≡ taken_by (result_ok answer) }
{
    answer.ok().filter(|count| *count > 0)
}

/// Reads from a reader and tells what it tells: nothing, of standard input. A read fails exactly
/// where the reader answers an error, so an interrupted read is a fault, and so is one that would
/// block. The count of faults stays at `u64::MAX` once it reaches it.
#[derive(Drop)]
pub struct StreamSource<R: Read> {
    reader: R,
    faults: u64,
    // Whether bytes are told is settled here, since a reader may come to know them later.
    start: Snapshot<R>,
}

impl<R: Read> Model for StreamSource<R> {
    ghost use Rattle.akl_outside.specs.Stream.{StreamState, StaysTold, told_bytes};

    ghost Value = { StreamState };

    ghost view = { λ s. record {
      bytes = told_bytes (R.remaining s.start.value) (R.remaining s.reader);
      faults = s.faults;
    } };

    ghost invariant = { λ s. StaysTold (R.remaining s.start.value) (R.remaining s.reader) };
}

impl<R: Read> StreamSource<R> {
    /// No read has failed yet.
    pub fn new(reader: R) -> StreamSource<R>
        ensures { result ≡ record { bytes = R.remaining reader; faults = 0 } }
    {
        let start = Snapshot::of(&reader);
        StreamSource {
            reader,
            faults: 0,
            start,
        }
    }
}

impl<R: Read> Source for StreamSource<R> {
    ghost use Rattle.akl_outside.specs.Stream.{Gives, Fails};

    ghost left = { λ s. s.bytes };

    ghost faults = { λ s. s.faults };

    ghost read_gives = { Gives };

    ghost read_fails = { Fails };

    fn read(&mut self, buffer: &mut [u8]) -> Result<usize, Failed>
        requires { 0 < length buffer.old }
        // As of every source.
        ensures count { ReadsAtMost result buffer.new }
        ensures bytes { IfOk result (λ n.
            self.old.bytes ≡ prepend_known (take n buffer.new) self.new.bytes) }
        ensures end { IfOk result (λ n. IfSome self.old.bytes (λ bytes. (n ≡ 0) ↔ (bytes ≡ []))) }
        ensures kept { OnErr result (self.new.bytes ≡ self.old.bytes) }
        ensures failed { OnErr result (Rose self.old.faults self.new.faults) }
        ensures never_falls { self.old.faults ≤ self.new.faults }
        ensures gives { IfOk result (λ n. Gives self.old (take n buffer.new) self.new) }
        ensures fails { OnErr result (Fails self.old self.new) }

        // The count is of the reads that failed.
        ensures faults { self.new.faults
            ≡ (if is_err result then next_count self.old.faults else self.old.faults) }
    {
        counted(self.reader.read(buffer).ok(), &mut self.faults)
    }
}

/// Writes to a writer and tells what it tells: nothing, of standard output. A write fails exactly
/// where the writer answers an error or takes nothing, so an interrupted write is a fault, and so is
/// one that would block. The count of faults stays at `u64::MAX` once it reaches it.
#[derive(Drop)]
pub struct StreamSink<W: Write> {
    writer: W,
    faults: u64,
    // Whether bytes are told is settled here, since a writer may come to know them later.
    start: Snapshot<W>,
}

impl<W: Write> Model for StreamSink<W> {
    ghost use Rattle.akl_outside.specs.Stream.{StreamState, StaysTold, told_bytes};

    ghost Value = { StreamState };

    ghost view = { λ s. record {
      bytes = told_bytes (W.contents s.start.value) (W.contents s.writer);
      faults = s.faults;
    } };

    ghost invariant = { λ s. StaysTold (W.contents s.start.value) (W.contents s.writer) };
}

impl<W: Write> StreamSink<W> {
    /// No write has failed yet.
    pub fn new(writer: W) -> StreamSink<W>
        ensures { result ≡ record { bytes = W.contents writer; faults = 0 } }
    {
        let start = Snapshot::of(&writer);
        StreamSink {
            writer,
            faults: 0,
            start,
        }
    }
}

impl<W: Write> Sink for StreamSink<W> {
    ghost use Rattle.akl_outside.specs.Stream.{Takes, Fails};

    ghost written = { λ s. s.bytes };

    ghost faults = { λ s. s.faults };

    ghost write_takes = { Takes };

    ghost write_fails = { Fails };

    fn write(&mut self, piece: &[u8]) -> Result<usize, Failed>
        requires { 0 < length piece.now }
        // As of every sink.
        ensures some { IfOk result (λ n. 0 < n) }
        ensures count { IfOk result (λ n. n ≤ length piece.now) }
        ensures bytes { IfOk result (λ n.
            self.new.bytes ≡ append_known self.old.bytes (take n piece.now)) }
        ensures kept { OnErr result (self.new.bytes ≡ self.old.bytes) }
        ensures failed { OnErr result (Rose self.old.faults self.new.faults) }
        ensures never_falls { self.old.faults ≤ self.new.faults }
        ensures takes { IfOk result (λ n. Takes self.old (take n piece.now) self.new) }
        ensures fails { OnErr result (Fails self.old self.new) }

        // The count is of the writes that failed.
        ensures faults { self.new.faults
            ≡ (if is_err result then next_count self.old.faults else self.old.faults) }
    {
        counted(taken(self.writer.write(piece)), &mut self.faults)
    }
}
