//! How a pool begins.
ghost use Rattle.std.specs.Prelude.{◌≡◌, ℕ, ◌+◌, ◌<◌, ◌≤◌, All, length, map, IfOk, OnOk, slice_get, Some};
ghost use Rattle.crossbeam_deque.specs.Handles.{worker_deque, worker_capacity};
ghost use Rattle.task_pool.specs.Owners.{IsFresh, AreFreshWays};
ghost use Rattle.task_pool.specs.Places.{IsPool, IsNew, first_room};

use crate::hand::{Deque, Hand};
use crate::rule::Passes;
use crate::way::Way;
use std::alloc::{AllocError, Global};

// The capacity with which a hand's deque is made: `first_room` in contracts.
const ROOM: usize = 64;

/// The hands of workers that share tokens.
pub struct Pool;

impl Pool {
    /// One hand for each of 1 to 16 workers, in the order of their numbers.
    pub fn new(alloc: Global, workers: u32) -> Result<Vec<Hand>, AllocError>
        requires { (0 < workers) × (workers ≤ 16) }
        ensures pool { IfOk result (λ hands. IsPool hands.items) }
        ensures hands { IfOk result (λ hands. length hands.items ≡ workers) }
        ensures fresh { IfOk result (λ hands. All (IsNew workers) hands.items) }
    {
        let mut deques = deques(alloc, workers as usize)?;
        let mut rows = Vec::new(alloc);
        for _ in 0..workers {
            rows.push(ways_into(alloc, &mut deques)?)?;
        }
        hands_of(alloc, deques, rows)
    }
}

// Deques with nothing in them.
fn deques(alloc: Global, count: usize) -> Result<Vec<Deque>, AllocError>
    ensures count { IfOk result (λ deques. length deques.items ≡ count) }
    ensures fresh { IfOk result (λ deques. All (IsFresh 0) deques.items) }
    ensures room { IfOk result (λ deques. All (λ d. worker_capacity d ≡ first_room) deques.items) }
{
    let mut deques = Vec::new(alloc);
    for _ in 0..count {
        deques.push(Deque::fifo_as(alloc, ROOM)?)?;
    }
    Ok(deques)
}

// The ways of the hand of the next number.
fn ways_into(alloc: Global, deques: &mut Vec<Deque>) -> Result<Vec<Way>, AllocError>
    requires { (passes : ℕ) × All (IsFresh passes) deques.old.items }
    ensures same { OnOk result (map worker_deque deques.new.items ≡ map worker_deque deques.old.items) }
    ensures more { OnOk result ((passes : ℕ) → All (IsFresh passes) deques.old.items → All (IsFresh (passes + 1)) deques.new.items) }
    ensures ways { IfOk result (λ ways. (passes : ℕ) → All (IsFresh passes) deques.old.items → AreFreshWays passes (map worker_deque deques.old.items) ways.items) }
{
    let mut ways = Vec::new(alloc);
    for k in 0..deques.len() {
        let deque = &mut deques[k];
        let stealer = deque.stealer()?;
        let pass = deque.another::<Passes>();
        ways.push(Way { stealer, pass })?;
    }
    Ok(ways)
}

// Each deque and its hand's ways make a hand.
fn hands_of(alloc: Global, deques: Vec<Deque>, rows: Vec<Vec<Way>>) -> Result<Vec<Hand>, AllocError>
    requires deques { All (IsFresh (length deques.items)) deques.items }
    requires count { length rows.items ≡ length deques.items }
    requires rows { (k : ℕ) (row : _) → slice_get rows.items k ≡ Some row → AreFreshWays k (map worker_deque deques.items) row.items }
    ensures pool { IfOk result (λ hands. IsPool hands.items) }
    ensures count { IfOk result (λ hands. length hands.items ≡ length deques.items) }
    ensures fresh { IfOk result (λ hands. All (IsNew (length deques.items)) hands.items) }
{
    let mut rows = rows.into_iter();
    let mut hands = Vec::new(alloc);
    for deque in deques {
        let Some(ways) = rows.next() else {
            unreachable!()
        };
        let number = hands.len();
        hands.push(Hand {
            number,
            deque,
            ways,
            room: ROOM as u64,
            pushes: 0,
        })?;
    }
    Ok(hands)
}
