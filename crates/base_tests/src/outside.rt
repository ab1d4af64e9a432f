//! Sources and sinks, in memory and over streams: that calls succeed, and what comes of a stream that fails.

use akl_outside::{
    Gate, MemorySink, MemorySource, NoGate, ReadError, ShortWrite, Sink, Source, StreamSink,
    StreamSource, read_up_to, write_all,
};
use std::alloc::{AllocError, Global};
use std::io;
use std::io::{ErrorKind, Read, Write};

/// Whether a source gives these bytes, of which there are at most 9, or fails.
fn gives<S: Source>(
    alloc: Global,
    source: &mut S,
    wanted: Option<&[u8]>,
) -> Result<bool, AllocError> {
    match read_up_to(alloc, source, 9) {
        Ok(bytes) => Ok(wanted == Some(bytes.as_slice())),
        Err(ReadError::Failed) => Ok(wanted.is_none()),
        Err(ReadError::Memory(error)) => Err(error),
    }
}

/// How many bytes of `abcdef` a sink takes.
fn taken<K: Sink>(sink: &mut K) -> usize {
    match write_all(sink, b"abcdef") {
        Ok(()) => 6,
        Err(ShortWrite { written }) => written,
    }
}

/// Whether a source of `abcdef` in pieces of four bytes, of which a read fails, gives these bytes or fails.
fn memory_gives(alloc: Global, failing: u64, wanted: Option<&[u8]>) -> Result<bool, AllocError> {
    let fails = vec![in alloc; failing]?;
    let bytes = b"abcdef".to_vec(alloc)?;
    let mut source = MemorySource::new(bytes, 4, fails);
    gives(alloc, &mut source, wanted)
}

/// Whether a sink for pieces of four bytes, of which a write fails and which has so much room, takes these bytes of `abcdef`.
fn memory_takes(
    alloc: Global,
    failing: u64,
    room: usize,
    wanted: &[u8],
) -> Result<bool, AllocError> {
    let fails = vec![in alloc; failing]?;
    let mut sink = MemorySink::new(alloc, 4, room, fails)?;
    Ok(taken(&mut sink) == wanted.len() && sink.bytes() == wanted)
}

#[test]
fn memory_gives_and_takes_bytes_until_a_call_fails(rt: HostRuntime) -> Result<(), AllocError> {
    let all = b"abcdef".as_slice();
    assert!(rt; memory_gives(rt.alloc(), 9, Some(all))?);
    assert!(rt; memory_gives(rt.alloc(), 1, None)?);
    assert!(rt; memory_takes(rt.alloc(), 9, 6, all)?);
    assert!(rt; memory_takes(rt.alloc(), 9, 5, b"abcde")?);
    assert!(rt; memory_takes(rt.alloc(), 1, 6, b"abcd")?);
    NoGate.before_plan(1);
    Ok(())
}

/// Each of its calls fails.
#[derive(Drop)]
struct Broken;

impl Read for Broken {
    fn read(&mut self, _buffer: &mut [u8]) -> io::Result<usize> {
        Err(io::Error::from(ErrorKind::WouldBlock))
    }
}

impl Write for Broken {
    fn write(&mut self, _piece: &[u8]) -> io::Result<usize> {
        Err(io::Error::from(ErrorKind::WouldBlock))
    }

    fn flush(&mut self) -> io::Result<()> {
        Ok(())
    }
}

// A writer without room gives 0.
#[test]
fn streams_give_and_take_bytes_or_fail(rt: HostRuntime) -> Result<(), AllocError> {
    let all = b"abcdef".as_slice();
    assert!(rt; gives(rt.alloc(), &mut StreamSource::new(all), Some(all))?);
    assert!(rt; gives(rt.alloc(), &mut StreamSource::new(Broken), None)?);
    let mut room = [0u8; 5];
    assert!(rt; taken(&mut StreamSink::new(room.as_mut_slice())) == 5);
    assert!(rt; room == *b"abcde");
    assert!(rt; taken(&mut StreamSink::new(Broken)) == 0);
    Ok(())
}
