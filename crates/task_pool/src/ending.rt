//! How a pool ends.
ghost use Rattle.std.specs.Prelude.{◌≡◌, ℕ, ◌+◌, ◌<◌, List, ◌++◌, map, slice_get, Some, IfOk, OnOk};
ghost use Rattle.crossbeam_deque.specs.Handles.{worker_view, worker_flavor, worker_port, worker_deque, SameWorker};
ghost use Rattle.task_pool.specs.Kept.{Leaves};
ghost use Rattle.task_pool.specs.Owners.{HasAll, IsNextWay, ways_of, next_taken, others, gathered};
ghost use Rattle.task_pool.specs.Places.{IsPool};
ghost use Rattle.task_pool.specs.Left.{IsLeft, times, times_pushed, times_taken};

use crate::hand::{Deque, Hand};
use crate::rule::{Drains, Passes};
use crate::way::Way;
use std::alloc::{AllocError, Global};
use std::vec::IntoIter;

/// The tokens that are left, those of the first hand's deque first. The hands are all hands of one pool.
pub fn finish(alloc: Global, hands: Vec<Hand>) -> Result<Vec<u64>, AllocError>
    requires { IsPool hands.items }
    ensures order { IfOk result (λ left. IsLeft hands.items left.items) }
    ensures balance { IfOk result (λ left. (token : ℕ) → times_pushed token hands.items ≡ times_taken token hands.items + times token left.items) }
{
    let mut deques = Vec::new(alloc);
    let mut rows = Vec::new(alloc);
    for hand in hands {
        let Hand { deque, ways, .. } = hand;
        deques.push(deque)?;
        rows.push(ways.into_iter())?;
    }
    let mut left = Vec::new(alloc);
    for mut deque in deques {
        gather(&mut deque, rows.as_mut_slice());
        drain(&mut deque, &mut left)?;
    }
    Ok(left)
}

// The owner takes back the pass of each row's next way.
fn gather(deque: &mut Deque, rows: &mut [IntoIter<Way>])
    requires owner { worker_port deque.old ≡ 0 }
    requires rows { (k : ℕ) (row : _) → slice_get (ways_of rows.old) k ≡ Some row → IsNextWay k (worker_deque deque.old) row }
    ensures same { SameWorker deque.old deque.new }
    ensures view { worker_view deque.new ≡ gathered (worker_view deque.old) (map next_taken (ways_of rows.old)) }
    ensures rows { ways_of rows.new ≡ map others (ways_of rows.old) }
{
    for k in 0..rows.len() {
        let row = &mut rows[k];
        if let Some(Way { stealer: _, pass }) = row.next() {
            deque.absorb::<Passes>(pass);
        }
    }
}

// Takes all that is left in the deque.
fn drain(deque: &mut Deque, left: &mut Vec<u64>) -> Result<(), AllocError>
    requires owner { (worker_flavor deque.old ≡ 0) × (worker_port deque.old ≡ 0) }
    requires all { HasAll (worker_view deque.old) × (0 < (worker_view deque.old).passes) }
    ensures { OnOk result ((taken : List ℕ) × (left.new.items ≡ left.old.items ++ taken) × Leaves (worker_view deque.old) taken) }
{
    while let Some(token) = deque.pop_as::<Drains>() {
        left.push(token)?;
    }
    Ok(())
}
