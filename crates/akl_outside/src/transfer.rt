//! Reading a source to its end, and writing a text whole.
ghost use Rattle.std.specs.Prelude.{◌≡◌, ◌<◌, ◌≤◌, [], length, take, OnOk, OnErr, IfOk, IfErr, IfSome};
ghost use Rattle.std.specs.Io.KnownBytes.{prepend_known, append_known};
ghost use Rattle.akl_outside.specs.Counts.{Rose};
ghost use Rattle.akl_outside.specs.Transfer.{ReadSome, Moves, FailsAfter, StopsReading};
ghost use Rattle.akl_outside.specs.declared.transfer.ReadError.TheVariants as variants;

use crate::traits::{Failed, Sink, Source};
use std::alloc::{AllocError, Global};

/// How many bytes `read_up_to` asks of a source at once, at most.
const CHUNK: usize = 8192;

/// Why a source wasn't read.
#[derive(Drop)]
pub enum ReadError {
    /// A read failed.
    Failed,
    /// There was no memory for what was read.
    Memory(AllocError),
}

impl From<Failed> for ReadError {
    ghost from_gives = { λ _ error. error ≡ variants.Failed };

    fn from(_: Failed) -> ReadError {
        ReadError::Failed
    }
}

impl From<AllocError> for ReadError {
    ghost from_gives = { λ cause error. error ≡ variants.Memory cause };

    fn from(error: AllocError) -> ReadError {
        ReadError::Memory(error)
    }
}

/// A text that was written in part, since a write failed: its first `written` bytes were taken.
#[derive(Drop)]
pub struct ShortWrite {
    pub written: usize,
}

/// Reads until a read answers `Ok(0)`, or until `limit` bytes were read, and gives these bytes. So
/// fewer than `limit` bytes are all that the source had left, and after `limit` bytes nothing more
/// was read. After a read that failed none follows. An `Err` drops what was read.
pub fn read_up_to<S: Source>(
    alloc: Global,
    source: &mut S,
    limit: usize,
) -> Result<Vec<u8>, ReadError>
    ensures bytes { IfOk result (λ bytes.
        S.left source.old ≡ prepend_known bytes.items (S.left source.new)) }
    ensures within { IfOk result (λ bytes. length bytes.items ≤ limit) }

    // Below the limit the end was reached.
    ensures end { IfOk result (λ bytes. length bytes.items < limit
        → IfSome (S.left source.new) (λ rest. rest ≡ [])) }
    ensures whole { IfOk result (λ bytes. length bytes.items < limit
        → IfSome (S.left source.old) (λ all. bytes.items ≡ all)) }

    // A read that failed came before the limit.
    ensures failed { result ≡ Err ReadError.Failed
        → Rose (S.faults source.old) (S.faults source.new) }
    ensures failed_early { result ≡ Err ReadError.Failed
        → ReadSome (S.left source.old) (S.left source.new) (λ n. n < limit) }
    ensures err { OnErr result (ReadSome (S.left source.old) (S.left source.new) (λ n. n ≤ limit)) }
    ensures never_falls { S.faults source.old ≤ S.faults source.new }

    // No read follows one that failed.
    ensures reads { IfOk result (λ bytes. Moves S.read_gives source.old bytes.items source.new) }
    ensures stops { IfErr result (StopsReading S.read_gives S.read_fails limit source.old source.new) }
{
    let mut bytes = Vec::new(alloc);
    let mut chunk = [0u8; CHUNK];
    while bytes.len() < limit {
        let room = CHUNK.min(limit - bytes.len());
        let count = source.read(&mut chunk[..room])?;
        if count == 0 {
            return Ok(bytes);
        }
        bytes.extend_from_slice(&chunk[..count])?;
    }
    Ok(bytes)
}

/// Writes all the bytes, in as many writes as it takes. After a write that failed none follows.
pub fn write_all<K: Sink>(sink: &mut K, bytes: &[u8]) -> Result<(), ShortWrite>
    ensures ok { OnOk result (K.written sink.new ≡ append_known (K.written sink.old) bytes.now) }
    ensures err { IfErr result (λ short. K.written sink.new
        ≡ append_known (K.written sink.old) (take short.written bytes.now)) }
    ensures short { IfErr result (λ short. short.written < length bytes.now) }
    ensures failed { OnErr result (Rose (K.faults sink.old) (K.faults sink.new)) }
    ensures never_falls { K.faults sink.old ≤ K.faults sink.new }

    // No write follows one that failed.
    ensures writes { OnOk result (Moves K.write_takes sink.old bytes.now sink.new) }
    ensures stops { IfErr result (λ short. FailsAfter K.write_takes K.write_fails sink.old
        (take short.written bytes.now) sink.new) }
{
    let mut written = 0;
    while written < bytes.len() {
        match sink.write(&bytes[written..]) {
            Ok(count) => written += count,
            Err(Failed) => return Err(ShortWrite { written }),
        }
    }
    Ok(())
}
