//! A hand's way into a deque of its pool.
ghost use Rattle.std.specs.Prelude.{◌≡◌, ◌≢◌, ℕ, ◌<◌, ◌≤◌, List, IfNone, IfSome, Some, All, length, slice_get, map, [], ◌∷◌, ◌++◌};
ghost use Rattle.crossbeam_deque.specs.Handles.{worker_view, worker_port, worker_index, SameWorker};
ghost use Rattle.task_pool.specs.Steps.{OwnerSaw, SeenEmpty};
ghost use Rattle.task_pool.specs.declared.view.View.{View};
ghost use Rattle.task_pool.specs.Views.{one_call};
ghost use Rattle.task_pool.specs.Ways.{IsWayOf, deque_of, view_of, taken_through, appended};

use crate::hand::Deque;
use crate::rule::{Calls, InOrder, Looks, Rule, Takes};
use crate::view::View;
use crossbeam_deque::{Pass, Steal, Stealer};
use crossbeam_utils::Backoff;
use std::alloc::Global;
use std::sync::Wait;

#[derive(Drop)]
pub(crate) struct Way<P: Rule = InOrder> {
    pub(crate) stealer: Stealer<u64, Global, View, P>,
    pub(crate) pass: Pass<u64, View>,
}

impl<P: Rule> Way<P> {
    // The first token of the deque. It waits where other hands take from it.
    fn take<R: Wait>(&mut self, rt: &R) -> Option<u64>
        requires { (number : ℕ) × IsWayOf number self.old }
        ensures way { (number : ℕ) → IsWayOf number self.old → IsWayOf number self.new }
        ensures deque { deque_of self.new ≡ deque_of self.old }
        ensures some { IfSome result (λ token. taken_through self.new ≡ taken_through self.old ++ token ∷ []) }
        ensures none { IfNone result ((view_of self.new ≡ view_of self.old) × SeenEmpty P.holds (view_of self.old)) }
    {
        P::laws();
        let backoff = Backoff::new();
        for _ in rt.forever() {
            match self.stealer.steal_as::<Takes<P>>(&mut self.pass) {
                Steal::Success(token) => return Some(token),
                Steal::Empty => return None,
                Steal::Retry => backoff.spin(),
            }
        }
        unreachable!()
    }
}

// The first token that the ways from one place up to another come to.
fn take_first<R: Wait, P: Rule>(rt: &R, ways: &mut [Way<P>], from: usize, to: usize) -> Option<u64>
    requires places { to ≤ length ways.old }
    requires ways { (number : ℕ) × All (IsWayOf number) ways.old }
    ensures ways { (number : ℕ) → All (IsWayOf number) ways.old → All (IsWayOf number) ways.new }
    ensures deques { map deque_of ways.new ≡ map deque_of ways.old }
    ensures some { IfSome result (λ token. (k : ℕ) × (k < length ways.old) × (map taken_through ways.new ≡ appended k token (map taken_through ways.old))) }
    ensures same { IfNone result ((map view_of ways.new ≡ map view_of ways.old) × (map taken_through ways.new ≡ map taken_through ways.old)) }
    ensures none { IfNone result ((k : ℕ) (v : View) → from ≤ k → k < to → slice_get (map view_of ways.old) k ≡ Some v → SeenEmpty P.holds v) }
{
    for k in from..to {
        let way = &mut ways[k];
        if let Some(token) = way.take(rt) {
            return Some(token);
        }
    }
    None
}

// The owner counts a call, and then takes the first token of its deque by the way into it. Only the owner pushes, so a
// deque that it saw empty stays so during the call.
fn take_own<R: Wait, P: Rule>(rt: &R, deque: &mut Deque<P>, way: &mut Way<P>) -> Option<u64>
    requires owner { worker_port deque.old ≡ 0 }
    requires way { (number : ℕ) × IsWayOf number way.old }
    ensures way { (number : ℕ) → IsWayOf number way.old → IsWayOf number way.new }
    ensures same { SameWorker deque.old deque.new × (worker_index deque.new ≡ worker_index deque.old) }
    ensures call { worker_view deque.new ≡ one_call (worker_view deque.old) }
    ensures deque { deque_of way.new ≡ deque_of way.old }
    ensures some { IfSome result (λ token. taken_through way.new ≡ taken_through way.old ++ token ∷ []) }
    ensures none { IfNone result ((view_of way.new ≡ view_of way.old) × OwnerSaw P.holds (worker_view deque.new) []) }
{
    P::laws();
    let _counted = deque.another::<Calls>();
    for _ in rt.forever() {
        if deque.len_as::<Looks<P>>() == 0 {
            return None;
        }
        if let Some(token) = way.take(rt) {
            return Some(token);
        }
    }
    unreachable!()
}

// The first token that the ways come to: into the owner's deque, whose way stands at this place, then by those after it
// and then from the first on.
pub(crate) fn take_around<R: Wait, P: Rule>(
    rt: &R,
    deque: &mut Deque<P>,
    ways: &mut [Way<P>],
    own: usize,
) -> Option<u64>
    requires own { own < length ways.old }
    requires owner { worker_port deque.old ≡ 0 }
    requires ways { (number : ℕ) × All (IsWayOf number) ways.old }
    ensures ways { (number : ℕ) → All (IsWayOf number) ways.old → All (IsWayOf number) ways.new }
    ensures same { SameWorker deque.old deque.new × (worker_index deque.new ≡ worker_index deque.old) }
    ensures call { worker_view deque.new ≡ one_call (worker_view deque.old) }
    ensures deques { map deque_of ways.new ≡ map deque_of ways.old }
    ensures some { IfSome result (λ token. (k : ℕ) × (k < length ways.old) × (map taken_through ways.new ≡ appended k token (map taken_through ways.old)) × (k ≢ own → OwnerSaw P.holds (worker_view deque.new) [])) }
    ensures none { IfNone result ((map taken_through ways.new ≡ map taken_through ways.old) × OwnerSaw P.holds (worker_view deque.new) []) }
    ensures others { IfNone result ((k : ℕ) (v : View) → k ≢ own → slice_get (map view_of ways.old) k ≡ Some v → SeenEmpty P.holds v) }
{
    let count = ways.len();
    let way = &mut ways[own];
    if let Some(token) = take_own(rt, deque, way) {
        return Some(token);
    }
    if let Some(token) = take_first(rt, ways, own + 1, count) {
        return Some(token);
    }
    take_first(rt, ways, 0, own)
}
