//! Commands that are run over a source and a sink in memory, and their replies.

use akl_model::Receipt;
use akl_outside::{Gate, MemorySink, MemorySource, NoGate};
use akl_run::{Report, refusal_line, run_akl};
use std::alloc::{AllocError, Global};
use std::fmt::Write;
use std::process::Abort;
use std::str::from_utf8;
use std::sync::Wait;
use std::thread::Threads;

/// What a command answers.
#[derive(Drop)]
pub struct Reply {
    /// Its status, its line on standard error and what was written, with ` / ` before each line.
    pub text: String,
    pub status: u8,
    /// How many bytes were written, and how many it says that was.
    pub written: usize,
    pub count: u64,
    /// How many labels its journal has, and how many of them were planned where no label had been made yet.
    pub labels: usize,
    pub first_plans: usize,
    /// How many models it has.
    pub models: usize,
}

// How many of the receipts are of plans that had seen no label.
fn count_first_plans(receipts: &[Vec<Receipt>]) -> usize {
    let mut count: usize = 0;
    for list in receipts {
        count = count.saturating_add(list.iter().filter(|receipt| receipt.seen == 0).count());
    }
    count
}

/// Adds lines, with ` / ` before each.
pub fn push_lines(text: &mut String, lines: &[u8]) -> Result<(), AllocError> {
    for line in from_utf8(lines).unwrap_or("no text").lines() {
        write!(text, " / {line}")?;
    }
    Ok(())
}

fn push_refusal(alloc: Global, text: &mut String, report: &Report) -> Result<(), AllocError> {
    let line = refusal_line(alloc, report.status, &report.refusal)?;
    push_lines(text, &line)
}

fn push_reply(
    alloc: Global,
    text: &mut String,
    report: &Report,
    written: &[u8],
) -> Result<(), AllocError> {
    write!(text, "{}", report.status.number())?;
    push_refusal(alloc, text, report)?;
    push_lines(text, written)
}

fn reply_of(alloc: Global, report: &Report, written: &[u8]) -> Result<Reply, AllocError> {
    let mut text = String::new(alloc);
    push_reply(alloc, &mut text, report, written)?;
    Ok(Reply {
        text,
        status: report.status.number(),
        written: written.len(),
        count: report.written,
        labels: report.journal.len(),
        first_plans: count_first_plans(&report.receipts),
        models: report.models.len(),
    })
}

/// Words over a source and a sink, with a gate.
pub fn run_over<R: Threads + Wait + Sync, G: Gate>(
    rt: &R,
    alloc: Global,
    words: &[String],
    source: &mut MemorySource,
    sink: &mut MemorySink,
    gate: &G,
) -> Result<Reply, AllocError> {
    let report = run_akl(rt, alloc, words, source, sink, gate);
    reply_of(alloc, &report, sink.bytes())
}

/// Words over a source, with a gate and a sink that takes five bytes at a time.
pub fn run_from<R: Threads + Wait + Sync, G: Gate>(
    rt: &R,
    alloc: Global,
    words: &[String],
    source: &mut MemorySource,
    gate: &G,
) -> Result<Reply, AllocError> {
    let mut sink = MemorySink::new(alloc, 5, 2_000_000, Vec::new(alloc))?;
    run_over(rt, alloc, words, source, &mut sink, gate)
}

// A source of a program that gives seven bytes at a time.
fn source_of(alloc: Global, program: &str) -> Result<MemorySource, AllocError> {
    let bytes = Vec::from_slice(alloc, program.as_bytes())?;
    Ok(MemorySource::new(bytes, 7, Vec::new(alloc)))
}

/// Words over a program, with a gate.
pub fn command_at<R: Threads + Wait + Sync, G: Gate>(
    rt: &R,
    alloc: Global,
    words: &[String],
    program: &str,
    gate: &G,
) -> Result<Reply, AllocError> {
    let mut source = source_of(alloc, program)?;
    run_from(rt, alloc, words, &mut source, gate)
}

/// Words over a program.
pub fn command<R: Threads + Wait + Sync>(
    rt: &R,
    alloc: Global,
    words: &[String],
    program: &str,
) -> Result<Reply, AllocError> {
    command_at(rt, alloc, words, program, &NoGate)
}

fn add_word(alloc: Global, words: &mut Vec<String>, word: &str) -> Result<(), AllocError> {
    words.push(String::from_str(alloc, word)?)?;
    Ok(())
}

/// Adds words that are parted by commas.
pub fn add_options(
    alloc: Global,
    words: &mut Vec<String>,
    options: &str,
) -> Result<(), AllocError> {
    for word in options.split(',') {
        if !word.is_empty() {
            add_word(alloc, words, word)?;
        }
    }
    Ok(())
}

/// A command's words.
pub fn words_of(alloc: Global, texts: &[&str]) -> Result<Vec<String>, AllocError> {
    let mut words = Vec::new(alloc);
    for text in texts {
        add_word(alloc, &mut words, text)?;
    }
    Ok(words)
}

/// A query over a program.
pub fn answer<R: Threads + Wait + Sync>(
    rt: &R,
    alloc: Global,
    program: &str,
    query: &str,
) -> Result<Reply, AllocError> {
    let words = words_of(alloc, &["--query", query])?;
    command(rt, alloc, &words, program)
}

/// A case has the text that it should.
pub fn expect(rt: &impl Abort, text: &str, wanted: &str, case: &str) {
    assert_eq!(rt; text, wanted, "{case}");
}

fn push_repeated(all: &mut String, repeated: &str) -> Result<(), AllocError> {
    let (part, times) = repeated.split_once('*').unwrap_or((repeated, ""));
    let Ok(times) = times.parse::<usize>() else {
        return all.push_str("no number of times");
    };
    for _ in 0..times {
        all.push_str(part)?;
    }
    Ok(())
}

fn push_piece(all: &mut String, piece: &str) -> Result<(), AllocError> {
    let Some((repeated, after)) = piece.split_once('}') else {
        return all.push_str(piece);
    };
    push_repeated(all, repeated)?;
    all.push_str(after)
}

/// A text in which `{a*3}` stands for `aaa`.
pub fn expanded(alloc: Global, text: &str) -> Result<String, AllocError> {
    let mut all = String::new(alloc);
    for piece in text.split('{') {
        push_piece(&mut all, piece)?;
    }
    Ok(all)
}
