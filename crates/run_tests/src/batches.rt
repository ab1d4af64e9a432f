//! Batches: many queries over one program.

use crate::replies::{add_options, expanded, expect, words_of};
use crate::rules::{LISTS, cut};
use akl_batch::{BatchReport, run_batch};
use akl_outside::{CrossGate, Gate, MemorySink, MemorySource, NoGate};
use akl_run::refusal_line;
use std::alloc::{AllocError, Global};
use std::fmt::Write;
use std::process::Abort;
use std::str::from_utf8;
use std::sync::Wait;
use std::thread::Threads;

/// Options, programs, the lines of a batch, between which ` / ` stands, and replies. The last has as many queries as a batch
/// may have, with the reply to each as it is alone.
const BATCHES: &str = r"
 => LISTS => member(X,[a]) / zz(1) => 0 / query 1 / answer 1 / X = a / done / query 2 / refused: undefined zz/1 / queries 2
--budget=5 => p :- -> p. => p / X = a => 0 / query 1 / budget / query 2 / answer 1 / X = a / done / queries 2
--workers=2,--budget=5 => p :- -> p. => p / X = a => 0 / query 1 / budget / query 2 / answer 1 / X = a / done / queries 2
--workers=16 => LISTS => append(L,[c],Z) / fail / nrev([1,2,3],R) => 0 / query 1 / suspended 1 / query 2 / failed / query 3 / answer 1 / R = [3,2,1] / done / queries 3
 =>  => true /  / fail => 0 / query 1 / answer 1 / done / query 2 / refused: syntax at 0 / query 3 / failed / queries 3
 =>  => true /  => 0 / query 1 / answer 1 / done / queries 1
 =>  =>  /  => 0 / query 1 / refused: syntax at 0 / queries 1
 =>  => X = a. Y / true => 0 / query 1 / refused: syntax at 0 / query 2 / answer 1 / done / queries 2
 =>  => true / (X = a -> true ; true) / fail => 0 / query 1 / answer 1 / done / query 2 / refused: mixed guards in ''/0 / query 3 / failed / queries 3
--workers,4 =>  => true{%*9997} / true{%*9996} => 0 / query 1 / refused: too long, 10001 bytes / query 2 / answer 1 / done / queries 2
 =>  =>  => 4 / akl: words: bad value at word 1
 =>  => fail{ / fail*32} => 4 / akl: words: bad value at word 1
--quiet =>  => fail{ / fail*32} => 4 / akl: words: bad value at word 1
 =>  => -1 = X => 4 / akl: words: missing at word 0
--query=true =>  => true => 4 / akl: words: unknown at word 2
--generate,1 =>  => true => 4 / akl: words: unknown at word 2
--trace =>  => true => 4 / akl: words: unknown at word 2
--why =>  => true => 4 / akl: words: unknown at word 2
--model =>  => true => 4 / akl: words: unknown at word 2
--batch=true =>  => true => 4 / akl: words: repeated at word 2
--workers,17 =>  => true => 4 / akl: words: bad value at word 3
 => p :- q. => true => 5 / akl: program: undefined q/0
--workers=3,--budget=200 => append([],Y,Z) :- -> Z = Y. append([X|Xs],Y,Z) :- -> Z = [X|Zs], append(Xs,Y,Zs). nrev([],R) :- -> R = []. nrev([X|Xs],R) :- -> nrev(Xs,S), append(S,[X],R). member(X,[X|_]). member(X,[_|T]) :- member(X,T). loop :- -> loop. => X = f(Y), Y = a / X = a, X = b / X = Y / true / fail / X = f(X), X = f(f(X)) / X = [a,b|X] / X = 'hello world', Y = 'it''s' / append([a,b],[c],Z) / append(L,[c],Z) / append([a,b],L,Z), L = [c] / nrev([1,2,3],R) / nrev([1,2,3,4,5,6,7,8,9,10,11,12,13,14,15,16],R) / loop / loop, X = a / member(X,[a,b]) / member(X,[1,2,3]), member(Y,[1,2,3]), X + Y =:= 4, X < Y / bagof(X, member(X,[a,b]), L) / bagof(Y, (member(Y,[a,b]), Y = Z), L) / X is 1 + 2 * 3 / X is 170141183460469231731687303715884105727 + 1 / open_port(P,S), send(a,P), P = Q / zz(1) / X = / (X = a -> R = 1 ; true -> R = 2), X = b / (zz ; X = b) / X = a, fail / nrev([a|T],R) / nrev([a|T],R), T = [b] / X = _, Y = f(X) / _X = f(_X,_A), Y = g(_B,_X) / member(X) => 0 / query 1 / answer 1 / X = f(a) / Y = a / done / query 2 / failed / query 3 / answer 1 / X = _1 / Y = _1 / done / query 4 / answer 1 / done / query 5 / failed / query 6 / answer 1 / X = R1 / R1 = f(R1) / done / query 7 / answer 1 / X = R1 / R1 = [a|R2] / R2 = [b|R1] / done / query 8 / answer 1 / X = 'hello world' / Y = 'it\'s' / done / query 9 / answer 1 / Z = [a,b,c] / done / query 10 / suspended 1 / query 11 / answer 1 / L = [c] / Z = [a,b,c] / done / query 12 / answer 1 / R = [3,2,1] / done / query 13 / budget / query 14 / budget / query 15 / budget / query 16 / answer 1 / X = a / answer 2 / X = b / done / query 17 / answer 1 / X = 1 / Y = 3 / done / query 18 / answer 1 / L = [a,b] / done / query 19 / suspended 1 / query 20 / answer 1 / X = 7 / done / query 21 / suspended 1 / query 22 / answer 1 / P = port / S = [a|_1] / Q = port / done / query 23 / refused: undefined zz/1 / query 24 / refused: syntax at 0 / query 25 / answer 1 / X = b / R = 2 / done / query 26 / refused: undefined zz/0 / query 27 / failed / query 28 / suspended 1 / query 29 / answer 1 / T = [b] / R = [b,a] / done / query 30 / answer 1 / X = _1 / Y = f(_1) / done / query 31 / answer 1 / Y = g(_1,R1) / R1 = f(R1,_2) / done / query 32 / refused: undefined member/1 / queries 32
";

/// What a batch answers.
#[derive(Drop)]
struct Answered {
    /// Its status, its line on standard error and what was written, with ` / ` before each line.
    text: String,
    replies: usize,
    /// How many bytes were written, and how many it says that was.
    written: usize,
    count: u64,
}

fn push_lines(text: &mut String, lines: &[u8]) -> Result<(), AllocError> {
    for line in from_utf8(lines).unwrap_or("no text").lines() {
        write!(text, " / {line}")?;
    }
    Ok(())
}

fn answer_of(alloc: Global, report: &BatchReport, written: &[u8]) -> Result<Answered, AllocError> {
    let mut text = format!(in alloc; "{}", report.status.number())?;
    let line = refusal_line(alloc, report.status, &report.refusal)?;
    push_lines(&mut text, &line)?;
    push_lines(&mut text, written)?;
    Ok(Answered {
        text,
        replies: report.replies.len(),
        written: written.len(),
        count: report.written,
    })
}

// The words of a batch of these lines, with options that are parted by commas.
fn words_for(alloc: Global, options: &str, lines: &str) -> Result<Vec<String>, AllocError> {
    let text = lines.replace(alloc, " / ", "\n")?;
    let mut words = words_of(alloc, &["--batch", text.as_str()])?;
    add_options(alloc, &mut words, options)?;
    Ok(words)
}

// Runs a batch from a source into a sink.
fn run_into<R: Threads + Sync, G: Gate>(
    rt: &R,
    alloc: Global,
    words: &[String],
    source: &mut MemorySource,
    sink: &mut MemorySink,
    gate: &G,
) -> Result<Answered, AllocError> {
    let report = run_batch(rt, alloc, words, source, sink, gate);
    answer_of(alloc, &report, sink.bytes())
}

// Runs a batch over a program, with a sink that takes one byte at a time and fails at these writes.
fn run_failing<R: Threads + Sync, G: Gate>(
    rt: &R,
    alloc: Global,
    words: &[String],
    program: &str,
    fails: &[u64],
    gate: &G,
) -> Result<Answered, AllocError> {
    let bytes = Vec::from_slice(alloc, program.as_bytes())?;
    let mut source = MemorySource::new(bytes, 7, Vec::new(alloc));
    let fails = Vec::from_slice(alloc, fails)?;
    let mut sink = MemorySink::new(alloc, 1, 100_000, fails)?;
    run_into(rt, alloc, words, &mut source, &mut sink, gate)
}

// The program that a line names.
fn program_of(name: &str) -> &str {
    if name == "LISTS" { LISTS } else { name }
}

// A line's batch gets the replies that it should.
fn try_batch<R: Threads + Sync + Abort>(
    rt: &R,
    alloc: Global,
    line: &str,
    case: &str,
) -> Result<(), AllocError> {
    let (options, rest) = cut(line);
    let (program, rest) = cut(rest);
    let (queries, wanted) = cut(rest);
    let words = words_for(alloc, options, queries)?;
    let found = run_failing(rt, alloc, &words, program_of(program), &[], &NoGate)?;
    expect(rt, &found.text, wanted, case);
    Ok(())
}

#[test]
fn batches_are_answered_or_refused(rt: HostRuntime) -> Result<(), AllocError> {
    let alloc = rt.alloc();
    for case in BATCHES.lines().skip(1) {
        let line = expanded(alloc, case)?;
        try_batch(&rt, alloc, &line, case)?;
    }
    Ok(())
}

/// How many bytes are written of the replies to two queries before a fault, and what stands there then.
const FAULTS: &str = r"
0 => 8 / akl: write fault
5 => 8 / akl: write fault / query
28 => 8 / akl: write fault / query 1 / answer 1 / X = a / done
33 => 8 / akl: write fault / query 1 / answer 1 / X = a / done / query
43 => 8 / akl: write fault / query 1 / answer 1 / X = a / done / query 2 / failed
52 => 8 / akl: write fault / query 1 / answer 1 / X = a / done / query 2 / failed / queries 2
53 => 0 / query 1 / answer 1 / X = a / done / query 2 / failed / queries 2
";

// A batch whose sink fails as a line says.
fn try_fault<R: Threads + Sync + Abort>(
    rt: &R,
    alloc: Global,
    case: &str,
) -> Result<(), AllocError> {
    let (count, wanted) = cut(case);
    let count = count.parse::<u64>().unwrap_or(1_000_000);
    let words = words_for(alloc, "", "X = a / fail")?;
    let found = run_failing(rt, alloc, &words, "", &[count], &NoGate)?;
    expect(rt, &found.text, wanted, case);
    assert_eq!(rt;
        (found.replies, found.count, found.written as u64),
        (2, count, count),
        "{case}"
    );
    Ok(())
}

#[test]
fn all_replies_are_there_after_a_write_fault(rt: HostRuntime) -> Result<(), AllocError> {
    let alloc = rt.alloc();
    for case in FAULTS.lines().skip(1) {
        try_fault(&rt, alloc, case)?;
    }
    Ok(())
}

#[test]
fn there_are_no_replies_after_a_read_fault(rt: HostRuntime) -> Result<(), AllocError> {
    let alloc = rt.alloc();
    let words = words_for(alloc, "", "X = a / fail")?;
    let fails = Vec::from_slice(alloc, &[1])?;
    let bytes = Vec::from_slice(alloc, b"p(a). q(b).")?;
    let mut source = MemorySource::new(bytes, 7, fails);
    let mut sink = MemorySink::new(alloc, 1, 1000, Vec::new(alloc))?;
    let found = run_into(&rt, alloc, &words, &mut source, &mut sink, &NoGate)?;
    expect(&rt, &found.text, "7 / akl: read fault", "a fault");
    assert_eq!(rt; found.replies, 0);
    Ok(())
}

#[test]
fn two_queries_run_at_the_same_time(rt: HostRuntime) -> Result<(), AllocError> {
    let alloc = rt.alloc();
    let gate = CrossGate::new(10_000_000);
    let queries = "nrev([1,2,3],R) / nrev([4,5,6],R)";
    let words = words_for(alloc, "--workers,2", queries)?;
    let found = run_failing(&rt, alloc, &words, LISTS, &[], &gate)?;
    let wanted =
        "0 / query 1 / answer 1 / R = [3,2,1] / done / query 2 / answer 1 / R = [6,5,4] / done / queries 2";
    expect(&rt, &found.text, wanted, queries);
    assert!(rt; gate.crossed());
    Ok(())
}
