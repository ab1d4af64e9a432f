//! What a pass knows. It exists in proofs alone: no value of these types is made.
use std::collections::LinkedList;

/// Whether a pass has the turn.
pub(crate) enum Stage {
    /// It has no turn.
    Idle,
    /// It has the turn.
    Serving,
}

/// A pass that was joined to the first, and what it had seen by then.
pub struct Joined<E> {
    pub number: u64,
    pub seen: LinkedList<E>,
}

/// What a caller is told of a pass.
pub struct View<F, E> {
    /// 0 for the first pass, and k for the k-th that was split from it.
    pub number: u64,
    /// The fixed part of each value of the lock.
    pub fixed: F,
    /// The beginning of the history that the pass has seen.
    pub seen: LinkedList<E>,
    /// How many passes were split from it.
    pub split_count: u64,
    /// Those that were joined to it again, in that order.
    pub joined: LinkedList<Joined<E>>,
}

/// What a pass's seat at the table knows.
pub(crate) struct Standing<F, E> {
    pub view: View<F, E>,
    pub stage: Stage,
}
