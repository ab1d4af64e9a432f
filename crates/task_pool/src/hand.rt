//! One worker's hand.
ghost use Rattle.std.specs.Prelude.{◌≡◌, ℕ, ◌<◌, true, ◌≤◌, [], ◌∷◌, ◌++◌, length, IfErr, IfNone, IfSome, OnErr, OnOk};
ghost use Rattle.task_pool.specs.Looks.{HasTaken, HasFoundNone, OwnSeenEmpty};

use crate::rule::{InOrder, Looks, Pushes, Rule};
use crate::view::View;
use crate::way::{Way, take_around};
use crossbeam_deque::Worker;
use std::alloc::Global;
use std::marker::Model;
use std::sync::Wait;

pub(crate) type Deque<P = InOrder> = Worker<u64, Global, View, P>;

/// One worker's hand in a pool: a deque of its own, and a way into each deque of the pool.
///
/// Contracts see which hand of which pool it is, the room of its deque, how many calls of `take` it began, what it has
/// pushed, and what it has taken from each deque. They are stated for any rule of the deques, so that only a look at a deque can show what the rule tells.
#[derive(Drop)]
pub struct Hand<P: Rule = InOrder> {
    pub(crate) number: usize,
    pub(crate) deque: Deque<P>,
    pub(crate) ways: Vec<Way<P>>,
    pub(crate) room: u64,
    pub(crate) pushes: u64,
}

impl<P: Rule> Model for Hand<P> {
    ghost use Rattle.task_pool.specs.Places.{Standing};

    ghost Value = { Standing };

    ghost use Rattle.task_pool.specs.Hands.{standing_of, IsHand};

    ghost view = { standing_of };

    ghost invariant = { IsHand };
}

/// The token was handed back, after so many pushes that succeeded.
#[derive(Drop)]
pub struct Refused {
    pub token: u64,
    pub pushes: u64,
}

/// The capacity with which the hand's deque was made, at least 1: as many first pushes succeed.
pub fn room<P: Rule>(hand: &Hand<P>) -> u64
    ensures room { result ≡ hand.now.room }
    ensures some { 0 < result }
{
    hand.room
}

/// Puts the token at the back of the hand's deque.
///
/// `Refused` hands it back where the deque cannot grow, for want of memory or at its bound, and leaves the hand as it
/// was. It comes only after `room` pushes.
pub fn push<P: Rule>(hand: &mut Hand<P>, token: u64) -> Result<(), Refused>
    ensures ok { OnOk result (hand.new ≡ record hand.old { pushed = hand.old.pushed ++ token ∷ [] }) }
    ensures refused { IfErr result (λ r. (r.token ≡ token) × (r.pushes ≡ length hand.old.pushed) × (hand.old.room ≤ r.pushes)) }
    ensures same { OnErr result (hand.new ≡ hand.old) }
    ensures place { hand.new.place ≡ hand.old.place }
{
    P::laws();
    let pushes = hand.pushes;
    let Some(after) = pushes.checked_add(1) else {
        return Err(Refused { token, pushes });
    };
    match hand.deque.push_as::<Pushes>(token) {
        Ok(()) => {
            hand.pushes = after;
            Ok(())
        }
        Err(token) => Err(Refused { token, pushes }),
    }
}

/// Whether the hand's own deque has no token.
pub fn is_bare<P: Rule>(hand: &mut Hand<P>) -> bool
    ensures same { hand.new ≡ hand.old }
    ensures bare { result ≡ true → OwnSeenEmpty P.holds hand.old }
{
    P::laws();
    hand.deque.len_as::<Looks<P>>() == 0
}

/// Takes the first token of the hand's own deque, or else of another hand's. It may wait while others take.
///
/// Another's token, and `None`, come only where the hand's own deque was seen empty after the call began. `None` comes
/// only where each other deque was seen empty too, at a moment since the hand last took from it.
pub fn take<R: Wait, P: Rule>(rt: &R, hand: &mut Hand<P>) -> Option<u64>
    ensures some { IfSome result (λ token. (k : ℕ) × HasTaken P.holds k token hand.old hand.new) }
    ensures none { IfNone result (HasFoundNone P.holds hand.old hand.new) }
    ensures place { hand.new.place ≡ hand.old.place }
{
    let number = hand.number;
    take_around(rt, &mut hand.deque, hand.ways.as_mut_slice(), number)
}
