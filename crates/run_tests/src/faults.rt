//! Sources that are read no further than they must, and faults of sources and sinks.

ghost use Rattle.std.specs.Prelude.{◌<◌};

use crate::replies::{Reply, expanded, expect, push_lines, run_from, run_over, words_of};
use crate::rules::{Case, case_of, words_for};
use akl_outside::{MemorySink, MemorySource, NoGate, Source};
use std::alloc::{AllocError, Global};
use std::fmt::Write;
use std::process::Abort;
use std::sync::Wait;
use std::thread::Threads;

// A source that gives so many bytes at a time, and fails at one call.
fn source_of(
    alloc: Global,
    program: &str,
    piece: usize,
    fails: &[u64],
) -> Result<MemorySource, AllocError>
    requires { 0 < piece }
{
    let fails = Vec::from_slice(alloc, fails)?;
    let bytes = Vec::from_slice(alloc, program.as_bytes())?;
    Ok(MemorySource::new(bytes, piece, fails))
}

// A query over the program of a source.
fn answer_from<R: Threads + Wait + Sync>(
    rt: &R,
    alloc: Global,
    source: &mut MemorySource,
    query: &str,
) -> Result<Reply, AllocError> {
    let words = words_of(alloc, &["--query", query])?;
    run_from(rt, alloc, &words, source, &NoGate)
}

// Has a query refused over the program of a source, and gives how many bytes the source gives then.
fn left_after<R: Threads + Wait + Sync + Abort>(
    rt: &R,
    alloc: Global,
    source: &mut MemorySource,
    query: &str,
    wanted: &str,
) -> Result<Option<usize>, AllocError> {
    let reply = answer_from(rt, alloc, source, query)?;
    expect(rt, &reply.text, wanted, "too long");
    Ok(source.read(&mut [0; 16]).ok())
}

#[test]
fn a_program_is_read_to_one_byte_more_than_it_may_have(rt: HostRuntime) -> Result<(), AllocError> {
    let alloc = rt.alloc();
    let spaces = expanded(alloc, "{ *1000010}")?;
    let mut source = source_of(alloc, &spaces, 1000, &[])?;
    let wanted = "5 / akl: program: too long, 1000001 bytes";
    let left = left_after(&rt, alloc, &mut source, "true", wanted)?;
    assert_eq!(rt; left, Some(9));
    Ok(())
}

#[test]
fn nothing_is_read_where_the_query_is_too_long(rt: HostRuntime) -> Result<(), AllocError> {
    let alloc = rt.alloc();
    let blanks = expanded(alloc, "{ *10001}")?;
    let mut source = source_of(alloc, "", 1, &[0])?;
    let wanted = "6 / akl: query: too long, 10001 bytes";
    let left = left_after(&rt, alloc, &mut source, &blanks, wanted)?;
    assert_eq!(rt; left, None);
    Ok(())
}

/// Options, programs, queries and replies of commands that make the same labels at each run.
const COMMANDS: &str = r"
 => LISTS => append([a,b],[c],Z) => 0 / answer 1 / Z = [a,b,c] / done
--workers,4 =>  => X = a, X = b => 1 / failed
 => p(a) :- -> true. => p(X) => 2 / suspended 1
 => m(a). m(b). => m(X) => 0 / answer 1 / X = a / answer 2 / X = b / done
--model => m(a). m(b). => m(X) => 0 / answer 1 / X = a / model / X: #0 / #0 = a / answer 2 / X = b / model / X: #0 / #0 = b / done
--why => p(a) :- -> true. => p(X) => 2 / waiting 1 / goal 0.2 on X / suspended 1
--trace,--budget,3 => m(a). m(b). => m(X) => 3 / step 1 fork goal 0.2 by 1 / step 2 split box 0.0 of 1.0 by 1 / step 3 promote goal 0.2 of 1.0 by 1 / answer 1 / X = a / budget
";

/// The number of a read or a write that doesn't come.
const NEVER: u64 = 1_000_000;

// Words over a source, with a sink that takes one byte at a time and fails at one write.
fn reply_into<R: Threads + Wait + Sync>(
    rt: &R,
    alloc: Global,
    words: &[String],
    source: &mut MemorySource,
    write: u64,
) -> Result<Reply, AllocError> {
    let fails = Vec::from_slice(alloc, &[write])?;
    let mut sink = MemorySink::new(alloc, 1, 1000, fails)?;
    run_over(rt, alloc, words, source, &mut sink, &NoGate)
}

// Words over a program that is read a byte at a time. One read and one write fail, if they come.
fn reply_with<R: Threads + Wait + Sync>(
    rt: &R,
    alloc: Global,
    words: &[String],
    program: &str,
    read: u64,
    write: u64,
) -> Result<Reply, AllocError> {
    let mut source = source_of(alloc, program, 1, &[read])?;
    reply_into(rt, alloc, words, &mut source, write)
}

// Each read fails in turn, also the one that finds the end. Then nothing is written.
fn try_reads<R: Threads + Wait + Sync + Abort>(
    rt: &R,
    alloc: Global,
    words: &[String],
    program: &str,
) -> Result<(), AllocError> {
    for read in 0..=program.len() {
        let reply = reply_with(rt, alloc, words, program, read as u64, NEVER)?;
        expect(rt, &reply.text, "7 / akl: read fault", program);
        assert_eq!(rt;
            (reply.written, reply.count, reply.labels, reply.models),
            (0, 0, 0, 0),
            "read {read}"
        );
    }
    Ok(())
}

// The reply to a command whose text ends with a write fault.
fn cut_reply(alloc: Global, front: &[u8]) -> Result<String, AllocError> {
    let mut reply = String::from_str(alloc, "8 / akl: write fault")?;
    push_lines(&mut reply, front)?;
    Ok(reply)
}

// The bytes that were written are this front of a text.
fn expect_front(
    rt: &impl Abort,
    alloc: Global,
    reply: &Reply,
    front: &[u8],
) -> Result<(), AllocError> {
    let wanted = cut_reply(alloc, front)?;
    expect(rt, &reply.text, &wanted, "a front");
    assert_eq!(rt;
        (reply.written, reply.count),
        (front.len(), front.len() as u64),
        "{wanted}"
    );
    Ok(())
}

// Each write of a text fails in turn. Then what was written before stands, and the journal and the models are whole.
fn try_writes<R: Threads + Wait + Sync + Abort>(
    rt: &R,
    alloc: Global,
    words: &[String],
    program: &str,
    text: &[u8],
    whole: &Reply,
) -> Result<(), AllocError> {
    for write in 0..text.len() {
        let reply = reply_with(rt, alloc, words, program, NEVER, write as u64)?;
        expect_front(rt, alloc, &reply, &text[..write])?;
        assert_eq!(rt;
            (reply.labels, reply.models),
            (whole.labels, whole.models),
            "write {write}"
        );
    }
    Ok(())
}

// The reply where no read and no write fails, as a fault would come behind the last.
fn whole_reply<R: Threads + Wait + Sync + Abort>(
    rt: &R,
    alloc: Global,
    words: &[String],
    case: &Case,
    text: &str,
) -> Result<Reply, AllocError> {
    let reads = case.program.len() as u64;
    let reply = reply_with(
        rt,
        alloc,
        words,
        case.program,
        reads.saturating_add(1),
        text.len() as u64,
    )?;
    expect(rt, &reply.text, case.wanted, case.query);
    Ok(reply)
}

// The text of a reply.
fn text_of(alloc: Global, reply: &str) -> Result<String, AllocError> {
    let mut text = String::new(alloc);
    for line in reply.split(" / ").skip(1) {
        writeln!(text, "{line}")?;
    }
    Ok(text)
}

// A case's command with each fault in turn, and without one.
fn try_faults<R: Threads + Wait + Sync + Abort>(
    rt: &R,
    alloc: Global,
    words: &[String],
    case: &Case,
) -> Result<(), AllocError> {
    let text = text_of(alloc, case.wanted)?;
    let whole = whole_reply(rt, alloc, words, case, &text)?;
    try_reads(rt, alloc, words, case.program)?;
    try_writes(rt, alloc, words, case.program, text.as_bytes(), &whole)
}

// The same of a line.
fn try_line<R: Threads + Wait + Sync + Abort>(
    rt: &R,
    alloc: Global,
    line: &str,
) -> Result<(), AllocError> {
    let case = case_of(line);
    let words = words_for(alloc, &case)?;
    try_faults(rt, alloc, &words, &case)
}

#[test]
fn each_read_and_each_write_may_fail(rt: HostRuntime) -> Result<(), AllocError> {
    for line in COMMANDS.lines().skip(1) {
        try_line(&rt, rt.alloc(), line)?;
    }
    Ok(())
}
