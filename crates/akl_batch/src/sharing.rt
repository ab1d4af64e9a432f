//! Queries that are shared among several workers.

ghost use Rattle.std.specs.Prelude.{◌≡◌, ◌≤◌, IfOk, IfErr, OnOk, All, None, Some, length};
ghost use Rattle.akl_batch.specs.Replies.{IsAnswer};
ghost use Rattle.akl_batch.specs.Steps.{AreAnswers, AreWithin, FitPlaces, GathersInto, IsPart, IsPartWithin, PutsInto, StopsAs, StopsOneOf};

use crate::answer::answer;
use crate::reply::Answer;
use akl_outside::Gate;
use akl_run::Stop;
use std::alloc::{AllocError, Global};
use std::sync::atomic::{AtomicUsize, Ordering};
use std::thread;
use std::thread::Threads;

/// The answer to the query of this number, counted from 0.
#[derive(Drop)]
pub(crate) struct Answered {
    pub at: usize,
    pub answer: Answer,
}

/// The answers to the queries, in their order. At most so many of them are worked at at the same time: whoever is free takes
/// the next one. Before each the gate is called with its number, counted from 1.
pub(crate) fn answer_all<R: Threads + Sync, G: Gate>(
    rt: &R,
    alloc: Global,
    program: &[u8],
    queries: &[Vec<u8>],
    workers: usize,
    budget: u64,
    gate: &G,
) -> Result<Vec<Answer>, Stop>
    requires { length program.now ≤ 1000001 }
    ensures answers { IfOk result (λ answers. AreAnswers program.now queries.now budget answers.items) }
    ensures stop { IfErr result (StopsAs program.now) }
{
    let parts = share(rt, alloc, program, queries, workers, budget, gate)?;
    let mut places = no_answers(alloc, queries.len())?;
    gather(&mut places, parts)?;
    in_order(alloc, program, queries, budget, gate, places)
}

// The answers that so many workers give, each in a thread of its own where one can be made. Nothing is known of the number that
// is next, so that none is left out is seen to afterwards.
fn share<R: Threads + Sync, G: Gate>(
    rt: &R,
    alloc: Global,
    program: &[u8],
    queries: &[Vec<u8>],
    workers: usize,
    budget: u64,
    gate: &G,
) -> Result<Vec<Result<Vec<Answered>, Stop>>, AllocError>
    requires { length program.now ≤ 1000001 }
    ensures { IfOk result (λ parts. All (IsPart program.now queries.now budget) parts.items) }
{
    let next = AtomicUsize::new(0);
    let counter = &next;
    let work = |_: usize| -> Result<Vec<Answered>, Stop>
        requires { length program.now ≤ 1000001 }
        ensures { IsPart program.entry.now queries.entry.now budget result }
    { answer_next(alloc, program, queries, budget, gate, counter) };
    thread::map_indices(rt, alloc, workers.min(queries.len()), &work)
}

// The answers to the queries that one worker takes: one after another, until none is left.
fn answer_next<G: Gate>(
    alloc: Global,
    program: &[u8],
    queries: &[Vec<u8>],
    budget: u64,
    gate: &G,
    next: &AtomicUsize,
) -> Result<Vec<Answered>, Stop>
    requires { length program.now ≤ 1000001 }
    ensures { IsPart program.now queries.now budget result }
{
    let mut answered = Vec::new(alloc);
    for _turn in 0..queries.len() {
        let at = next.fetch_add(1, Ordering::SeqCst);
        let Some(query) = queries.get(at) else {
            break;
        };
        let answer = answer_at(alloc, program, query, budget, gate, at)?;
        answered.push(Answered { at, answer })?;
    }
    Ok(answered)
}

// The answer to the query of a number, counted from 0, behind a call of the gate.
fn answer_at<G: Gate>(
    alloc: Global,
    program: &[u8],
    query: &[u8],
    budget: u64,
    gate: &G,
    at: usize,
) -> Result<Answer, Stop>
    requires { length program.now ≤ 1000001 }
    ensures answer { IfOk result (IsAnswer program.now query.now budget) }
    ensures stop { IfErr result (StopsAs program.now) }
{
    gate.before_plan(u32::try_from(at).unwrap_or(u32::MAX).saturating_add(1));
    answer(alloc, program, query, budget)
}

// Places for so many answers.
fn no_answers(alloc: Global, count: usize) -> Result<Vec<Option<Answer>>, AllocError>
    ensures count { IfOk result (λ places. length places.items ≡ count) }
    ensures empty { IfOk result (λ places. All (λ place. place ≡ None) places.items) }
{
    let mut places = Vec::new(alloc);
    for _made in 0..count {
        places.push(None)?;
    }
    Ok(places)
}

// Puts the answers of several workers in their places.
fn gather(
    places: &mut Vec<Option<Answer>>,
    parts: Vec<Result<Vec<Answered>, Stop>>,
) -> Result<(), Stop>
    requires { All (IsPartWithin (length places.old.items)) parts.items }
    ensures places { OnOk result (GathersInto parts.items places.old.items places.new.items) }
    ensures stop { IfErr result (StopsOneOf parts.items) }
{
    for part in parts {
        place(places, part?);
    }
    Ok(())
}

// Puts the answers of one worker in their places.
fn place(places: &mut Vec<Option<Answer>>, part: Vec<Answered>)
    requires { AreWithin (length places.old.items) part.items }
    ensures puts { PutsInto part.items places.old.items places.new.items }
    ensures count { length places.new.items ≡ length places.old.items }
{
    for answered in part {
        let Answered { at, answer } = answered;
        fill(&mut places[at], answer);
    }
}

// Puts an answer in a place.
fn fill(place: &mut Option<Answer>, answer: Answer)
    ensures { place.new ≡ Some answer }
{
    *place = Some(answer);
}

// The answers in order. A query that no worker took is answered here.
fn in_order<G: Gate>(
    alloc: Global,
    program: &[u8],
    queries: &[Vec<u8>],
    budget: u64,
    gate: &G,
    mut places: Vec<Option<Answer>>,
) -> Result<Vec<Answer>, Stop>
    requires program { length program.now ≤ 1000001 }
    requires places { FitPlaces program.now queries.now budget places.items }
    ensures answers { IfOk result (λ answers. AreAnswers program.now queries.now budget answers.items) }
    ensures stop { IfErr result (StopsAs program.now) }
{
    let mut answers = Vec::new(alloc);
    for (at, query) in queries.iter().enumerate() {
        let answer = match places[at].take() {
            Some(answer) => answer,
            None => answer_at(alloc, program, query, budget, gate, at)?,
        };
        answers.push(answer)?;
    }
    Ok(answers)
}
