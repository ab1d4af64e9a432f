//! The rule of each deque, and what each step tells.
ghost use Rattle.task_pool.specs.Steps.{PushesKeep, TakesKeep, CallsKeep};

use crate::view::View;
use crossbeam_deque::protocol::{Join, Lesson, Outcome, Protocol, Split};
use std::marker::PhantomData;

/// A rule that a push at the back, a take at the front and the count of a call keep.
pub trait Rule: Protocol<u64, View> {
    /// Does nothing: its contract is what the rule keeps.
    fn laws()
        ensures pushes { PushesKeep Self.holds }
        ensures takes { TakesKeep Self.holds }
        ensures calls { CallsKeep Self.holds };
}

/// First in, first out: what was pushed is what has left and then what is there, in one order.
pub struct InOrder;

impl Protocol<u64, View> for InOrder {
    ghost use Rattle.task_pool.specs.Kept.{Kept};
    ghost use Rattle.task_pool.specs.Views.{newcomer, spent};

    ghost holds = { Kept };

    ghost first = { newcomer };

    ghost guest = { spent };
}

impl Rule for InOrder {
    fn laws() {}
}

pub(crate) struct Pushes;

impl Outcome<u64, View> for Pushes {
    ghost use Rattle.std.specs.Prelude.{◌≡◌};
    ghost use Rattle.task_pool.specs.Views.{after_push};

    ghost then = { λ v xs w. w ≡ after_push v xs };
}

/// A take under the rule `P`. Where it finds none, the deque was empty at that moment.
pub(crate) struct Takes<P> {
    of: PhantomData<P>,
}

impl<P: Protocol<u64, View>> Outcome<u64, View> for Takes<P> {
    ghost use Rattle.std.specs.Prelude.{◌≡◌};
    ghost use Rattle.task_pool.specs.Views.{after_take};
    ghost use Rattle.task_pool.specs.Steps.{SeenEmpty};

    ghost then = { λ v xs w. w ≡ after_take v xs };

    ghost empty = { SeenEmpty P.holds };
}

/// A look of the owner under the rule `P`, at the tokens of one moment.
pub(crate) struct Looks<P> {
    of: PhantomData<P>,
}

impl<P: Protocol<u64, View>> Lesson<u64, View> for Looks<P> {
    ghost use Rattle.task_pool.specs.Steps.{OwnerSaw};

    ghost fact = { OwnerSaw P.holds };
}

/// The owner counts a call of `take`. The pass that comes of it knows nothing.
pub(crate) struct Calls;

impl Split<View> for Calls {
    ghost use Rattle.task_pool.specs.Views.{one_call, spent};

    ghost left = { one_call };

    ghost right = { λ v. spent };
}

/// A take by the owner, which learns what was left.
pub(crate) struct Drains;

impl Outcome<u64, View> for Drains {
    ghost use Rattle.task_pool.specs.Kept.{Drained, Leaves};
    ghost use Rattle.std.specs.Prelude.{[]};

    ghost then = { Drained };

    ghost empty = { λ v. Leaves v [] };
}

/// The owner makes a pass for the hand of the next number, and takes passes back.
pub(crate) struct Passes;

impl Split<View> for Passes {
    ghost use Rattle.task_pool.specs.Views.{one_more, of_next};

    ghost left = { one_more };

    ghost right = { of_next };
}

impl Join<View> for Passes {
    ghost use Rattle.task_pool.specs.Views.{joined, spent};

    ghost both = { joined };

    ghost spent = { spent };
}
