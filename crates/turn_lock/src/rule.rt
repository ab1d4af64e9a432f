//! What holds of the lock between any two steps.
use crate::booked::Booked;
use crate::view::Standing;
use atomic_table::TableRule;
use std::marker::PhantomData;
use std::snapshot::Snapshot;

/// The word is 0 exactly while the slot has the value; else one pass has taken the value out.
/// The view of a pass that was joined is `None`.
pub(crate) struct TurnRule<T> {
    of: PhantomData<T>,
}

impl<T: Booked> TableRule<Option<T>, Option<Standing<T::Fixed, T::Entry>>, Snapshot<T>>
    for TurnRule<T> {
    ghost use Rattle.turn_lock.specs.Kept.{Kept};
    ghost use Rattle.turn_lock.specs.Known.{idle};
    ghost use Rattle.turn_lock.specs.Views.{newcomer};
    ghost use Rattle.std.specs.Prelude.{Some, []};

    ghost holds = { λ k s. Kept T.fixed T.history T.maker (T.fixed k.value) s };

    ghost first = { λ k. Some (idle (newcomer 0 (T.fixed k.value) [])) };
}
