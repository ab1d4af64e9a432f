//! What each step of the lock tells the pass that takes it.
use crate::booked::Booked;
use crate::view::Standing;
use atomic_table::{Join, Play, Split};
use std::marker::PhantomData;

/// A step by which a pass without a turn tries to take the value: it writes another number than 0, at least where it finds 0.
pub(crate) struct Try<T> {
    of: PhantomData<T>,
}

impl<T: Booked> Play<Option<T>, Option<Standing<T::Fixed, T::Entry>>> for Try<T> {
    ghost use Rattle.turn_lock.specs.Told.{Tried};

    ghost then = { λ _. Tried T.fixed T.history T.maker };
}

/// A swap to 0, by the pass that has the value.
pub(crate) struct Leave<T> {
    of: PhantomData<T>,
}

impl<T: Booked> Play<Option<T>, Option<Standing<T::Fixed, T::Entry>>> for Leave<T> {
    ghost use Rattle.turn_lock.specs.Told.{left};

    ghost then = { left T.history };
}

/// A pass is split from the first.
pub(crate) struct Cut;

impl<F, E> Split<Option<Standing<F, E>>> for Cut {
    ghost use Rattle.turn_lock.specs.Told.{split_from, newly_split};

    ghost left = { split_from };

    ghost right = { newly_split };
}

/// A pass is joined to the first.
pub(crate) struct Merge;

impl<F, E> Join<Option<Standing<F, E>>> for Merge {
    ghost use Rattle.turn_lock.specs.Told.{merged};
    ghost use Rattle.std.specs.Prelude.{None};

    ghost both = { merged };

    ghost spent = { None };
}
