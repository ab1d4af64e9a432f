//! The lock, its passes and its turns.
ghost use Rattle.std.specs.Prelude.{◌≡◌, ◌<◌, ◌≤◌, ◌+◌, ◌++◌, true, [], ◌∷◌, length, All, IfOk};
ghost use Rattle.turn_lock.specs.Histories.{GoesOnBy, GoesOnWithout, longer};
ghost use Rattle.turn_lock.specs.Known.{is_whole, Idles, Serves};
ghost use Rattle.turn_lock.specs.Told.{Tried};
ghost use Rattle.turn_lock.specs.Views.{newcomer, with_joined};

use crate::booked::Booked;
use crate::rule::TurnRule;
use crate::steps::{Cut, Leave, Merge, Try};
use crate::view::Standing;
use atomic_table::{Seat, Table};
use crossbeam_utils::Backoff;
use std::alloc::{AllocError, Global};
use std::snapshot::Snapshot;
use std::sync::Wait;

// What the lock's word is where the value is there to be taken, where a pass has it, and where besides a pass may sleep.
const FREE: u64 = 0;

const TAKEN: u64 = 1;

const AWAITED: u64 = 2;

/// A lock that gives its value to one pass at a time: to the first that finds it free, whichever waited longest.
#[derive(Drop)]
pub struct TurnLock<T: Booked> {
    table: Table<Option<T>, Option<Standing<T::Fixed, T::Entry>>, Snapshot<T>, TurnRule<T>, Global>,
    ghost shape: { (table.shared.table_id.words ≡ 1) × (table.shared.table_id.slots ≡ 1) },
}

/// A thread's right to take turns, and what it has seen of the history.
#[derive(Drop)]
pub struct Pass<T: Booked> {
    seat: Seat<Option<T>, Option<Standing<T::Fixed, T::Entry>>>,
    ghost whole: { is_whole seat.me ≡ true },
}

/// The turn of a pass. It can't be dropped: `unlock` takes it back.
pub struct Turn(());

impl<T: Booked> TurnLock<T> {
    ghost use Rattle.turn_lock.specs.Passes.{view, IsPassOf, HasTurn, HasNoTurn, fixed_part};

    /// Waits for the pass's turn, and takes the value.
    ///
    /// Its history begins with all that the pass had seen, and none of the further entries was made by
    /// this pass, which has then seen them all.
    pub fn lock<R: Wait>(&self, rt: &R, pass: &mut Pass<T>) -> (Turn, T)
        requires lock { IsPassOf self.now pass.old }
        requires idle { HasNoTurn pass.old }
        ensures lock { IsPassOf self.now pass.new }
        ensures turn { HasTurn pass.new result.0 }
        ensures fixed { T.fixed result.1 ≡ fixed_part T.fixed self.now }
        ensures history { GoesOnWithout T.maker (view pass.old).number (view pass.old).seen (T.history result.1) }
        ensures seen { view pass.new ≡ record (view pass.old) { seen = T.history result.1 } }
    {
        self.take_turn(rt, &mut pass.seat)
    }

    // A pass that has slept takes the value as one for which others may sleep, since it can't tell whether they do.
    fn take_turn<R: Wait>(
        &self,
        rt: &R,
        seat: &mut Seat<Option<T>, Option<Standing<T::Fixed, T::Entry>>>,
    ) -> (Turn, T)
        requires lock { seat.old.table_id ≡ self.now.table.shared.table_id }
        requires idle { Idles seat.old.me }
        ensures lock { seat.new.table_id ≡ seat.old.table_id }
        ensures value { Serves T.fixed T.history T.maker seat.old.me result.1 seat.new.me }
    {
        let shared = &self.table.shared;
        let backoff = Backoff::new();
        for _ in rt.forever() {
            if self.try_once(seat, backoff.is_completed()) == FREE {
                let Some(value) = shared.exchange(seat, 0, None) else {
                    unreachable!()
                };
                return (Turn(()), value);
            }
            self.wait(rt, &backoff);
        }
        unreachable!()
    }

    // Waits for a moment, or sleeps where there were enough of these and the word says that a pass may sleep.
    fn wait<R: Wait>(&self, rt: &R, backoff: &Backoff) {
        if backoff.is_completed() {
            self.table.shared.park(rt, 0, AWAITED as u32);
        } else {
            backoff.snooze();
        }
    }

    // Takes the value where it is there, and returns what the word was. Where it isn't, and the pass sleeps, the word tells so.
    fn try_once(
        &self,
        seat: &mut Seat<Option<T>, Option<Standing<T::Fixed, T::Entry>>>,
        sleeps: bool,
    ) -> u64
        requires lock { seat.old.table_id ≡ self.now.table.shared.table_id }
        requires idle { Idles seat.old.me }
        ensures lock { seat.new.table_id ≡ seat.old.table_id }
        ensures told { Tried T.fixed T.history T.maker seat.old.me result seat.new.me }
    {
        let shared = &self.table.shared;
        if sleeps {
            shared.swap::<Try<T>>(seat, 0, AWAITED)
        } else {
            shared.compare_exchange::<Try<T>>(seat, 0, FREE, TAKEN)
        }
    }

    /// Gives the value back, and wakes a pass that may sleep.
    ///
    /// The value's history may have gone on, by entries that this pass made.
    pub fn unlock(&self, turn: Turn, value: T, pass: &mut Pass<T>)
        requires lock { IsPassOf self.now pass.old }
        requires turn { HasTurn pass.old turn }
        requires fixed { T.fixed value ≡ fixed_part T.fixed self.now }
        requires history { GoesOnBy T.maker (view pass.old).number (view pass.old).seen (T.history value) }
        ensures lock { IsPassOf self.now pass.new }
        ensures turn { HasNoTurn pass.new }
        ensures seen { view pass.new ≡ record (view pass.old) { seen = T.history value } }
    {
        let Turn(()) = turn;
        let shared = &self.table.shared;
        let empty = shared.exchange(&mut pass.seat, 0, Some(value));
        let None = empty else { unreachable!() };
        let found = shared.swap::<Leave<T>>(&mut pass.seat, 0, FREE);
        self.wake_if_awaited(found);
    }

    // Wakes a pass that sleeps, if there is one, where the word that was found says that one may.
    fn wake_if_awaited(&self, found: u64) {
        if found == AWAITED {
            self.table.shared.wake_one(0);
        }
    }

    /// A pass of the next number, which has seen what the first has. Only the first pass is split,
    /// and at most 1,000,000 times.
    pub fn split(&self, first: &mut Pass<T>) -> Pass<T>
        requires lock { IsPassOf self.now first.old }
        requires first { (view first.old).number ≡ 0 }
        requires idle { HasNoTurn first.old }
        requires room { (view first.old).split_count < 1000000 }
        ensures lock { IsPassOf self.now first.new × IsPassOf self.now result }
        ensures idle { HasNoTurn first.new × HasNoTurn result }
        ensures first { view first.new ≡ record (view first.old) { split_count = (view first.old).split_count + 1 } }
        ensures next { view result ≡ newcomer ((view first.old).split_count + 1) (view first.old).fixed (view first.old).seen }
    {
        let next = self.table.shared.split_seat::<Cut>(&mut first.seat);
        Pass { seat: next }
    }

    /// Ends a pass that was split from the first, which has then seen the longer of what the two had.
    pub fn join(&self, first: &mut Pass<T>, other: Pass<T>)
        requires lock { IsPassOf self.now first.old × IsPassOf self.now other }
        requires first { (view first.old).number ≡ 0 }
        requires other { 0 < (view other).number }
        requires idle { HasNoTurn first.old × HasNoTurn other }
        ensures lock { IsPassOf self.now first.new }
        ensures idle { HasNoTurn first.new }
        ensures first { view first.new ≡ with_joined (view first.old) (view other) }
    {
        let Pass { seat } = other;
        self.table.shared.join_seat::<Merge>(&mut first.seat, seat);
    }

    /// Ends the lock, once every pass that was split from the first was joined, and gives the value.
    ///
    /// Its history is what the first pass has seen, and the first pass, or one that was split from it,
    /// made each entry. For each pass that was joined it begins with what
    /// that pass had seen, and none of the further entries was made by that pass.
    pub fn close(self, first: Pass<T>) -> T
        requires lock { IsPassOf self first }
        requires first { (view first).number ≡ 0 }
        requires idle { HasNoTurn first }
        requires alone { length (view first).joined ≡ (view first).split_count }
        ensures fixed { T.fixed result ≡ fixed_part T.fixed self }
        ensures history { T.history result ≡ (view first).seen }
        ensures makers { All (λ e. T.maker e ≤ (view first).split_count) (T.history result) }
        ensures joined { All (λ j. GoesOnWithout T.maker j.number j.seen (T.history result)) (view first).joined }
    {
        let TurnLock { table } = self;
        let Pass { seat } = first;
        let mut closed = table.close_with(seat);
        let slot = closed.take(0);
        closed.free();
        let Some(value) = slot else { unreachable!() };
        value
    }
}

impl<T: Booked + Drop> TurnLock<T> {
    ghost use Rattle.turn_lock.specs.Passes.{view, IsPassOf, HasNoTurn, fixed_part};

    /// A lock round the value, and its first pass, of number 0. `AllocError` says that there was no
    /// memory for the lock; the value is then dropped.
    pub fn new(alloc: Global, value: T) -> Result<(TurnLock<T>, Pass<T>), AllocError>
        requires { T.history value ≡ [] }
        ensures fixed { IfOk result (λ r. fixed_part T.fixed r.0 ≡ T.fixed value) }
        ensures pass { IfOk result (λ r. IsPassOf r.0 r.1 × HasNoTurn r.1) }
        ensures first { IfOk result (λ r. view r.1 ≡ newcomer 0 (T.fixed value) []) }
    {
        let about = Snapshot::of(&value);
        let mut slots = Vec::new(alloc);
        slots.push(Some(value))?;
        let Ok((table, seat)) = Table::new(alloc, &[FREE], slots, &about) else {
            return Err(AllocError);
        };
        Ok((TurnLock { table }, Pass { seat }))
    }
}
