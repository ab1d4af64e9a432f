//! The tokens of places that come last.

ghost use Rattle.std.specs.Prelude.{◌≡◌, ◌<◌, true, length, IfSome, OnOk};
ghost use Rattle.wake_lists.specs.TokenSets.{is_token_in};
ghost use Rattle.par_workers.specs.Tokens.{IsTakenFrom};

use crate::lying::Lying;
use crate::planning::Planning;
use akl_terms::Name;
use scheduler::{Attention, Scheduler};
use std::alloc::{AllocError, Global};
use std::marker::Model;
use wake_lists::Urgency;

/// The tokens of places that are late or put off, those that came last behind: no worker has them, so that each finds one
/// whose place may be looked at. With each is the root box of its place. Contracts see the list of them.
#[derive(Drop)]
pub struct Late {
    lying: Lying,
    // The next one of which it is asked whether its place comes last still.
    next: usize,
}

impl Model for Late {
    ghost use Rattle.std.specs.Prelude.{List, ℕ};

    ghost Value = { List ℕ };

    ghost view = { λ l. l.lying };
}

impl Late {
    /// None yet.
    pub(crate) fn new(alloc: Global) -> Late {
        Late {
            lying: Lying::new(alloc),
            next: 0,
        }
    }

    /// How many there are.
    pub(crate) fn count(&self) -> usize {
        self.lying.count()
    }

    /// A token comes to these; its place stands in this root box.
    pub(crate) fn add(&mut self, token: u64, root: Option<Name>) -> Result<(), AllocError>
        ensures stay { (other : _) → is_token_in other self.old ≡ true → is_token_in other self.new ≡ true }
        ensures comes { OnOk result (is_token_in token self.new ≡ true) }
    {
        self.lying.add(token, root)
    }

    /// Takes out the next one in whose root box no other worker plans, if its place comes last no more.
    pub(crate) fn take_next(
        &mut self,
        scheduler: &Scheduler,
        planning: &Planning,
        worker: u32,
    ) -> Option<u64>
        ensures { IsTakenFrom self.old result self.new }
    {
        let Some(index) = next_at_hand(&self.lying, self.next, planning, worker) else {
            self.next = 0;
            return None;
        };
        if comes_last(scheduler, self.lying.token_at(index)) {
            self.next = index.saturating_add(1);
            return None;
        }
        self.next = index;
        Some(self.lying.take_out(index))
    }

    /// Takes out the last one whose place isn't put off, and stands in no root box in which another worker plans.
    pub(crate) fn take_last(
        &mut self,
        scheduler: &Scheduler,
        planning: &Planning,
        worker: u32,
    ) -> Option<u64>
        ensures { IsTakenFrom self.old result self.new }
    {
        let index = last_at_hand(scheduler, &self.lying, planning, worker)?;
        Some(self.lying.take_out(index))
    }
}

// Where the next one is, from an index on, in whose root box no other worker plans; `None` where there is none there.
fn next_at_hand(lying: &Lying, next: usize, planning: &Planning, worker: u32) -> Option<usize>
    ensures { IfSome result (λ index. index < length lying.now) }
{
    for index in next..lying.count() {
        if !planning.is_by_another(worker, lying.root_at(index)) {
            return Some(index);
        }
    }
    None
}

// Where the last one is whose place isn't put off, and stands in no root box in which another worker plans.
fn last_at_hand(
    scheduler: &Scheduler,
    lying: &Lying,
    planning: &Planning,
    worker: u32,
) -> Option<usize>
    ensures { IfSome result (λ index. index < length lying.now) }
{
    for index in (0..lying.count()).rev() {
        if !planning.is_by_another(worker, lying.root_at(index))
            && !is_put_off(scheduler, lying.token_at(index))
        {
            return Some(index);
        }
    }
    None
}

/// Whether the open place with this token is late, or isn't looked at yet.
pub(crate) fn comes_last(scheduler: &Scheduler, token: u64) -> bool {
    scheduler.urgency_of(token) == Some(Urgency::Late) || is_put_off(scheduler, token)
}

// Whether an open place isn't looked at yet.
fn is_put_off(scheduler: &Scheduler, token: u64) -> bool {
    match scheduler.place_of(token) {
        Some(place) => scheduler.attention_at(token, place) == Attention::PutOff,
        None => false,
    }
}
