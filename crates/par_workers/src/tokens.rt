//! The tokens of a run, and where they are.

ghost use Rattle.std.specs.Prelude.{◌≡◌, ◌<◌, ◌≤◌, true, length, IsSome, OnOk};
ghost use Rattle.wake_lists.specs.Open.{opening_at};
ghost use Rattle.wake_lists.specs.TokenSets.{is_token_in, Drops};
ghost use Rattle.scheduler.specs.Openings.{IsNumberIn};
ghost use Rattle.par_workers.specs.Tokens.{KeepsHeld, IsDealt, IsAtHand, StayAtHand, NewAtHand, IsTakenFrom};

use crate::copies::Copies;
use crate::late::Late;
use crate::planning::Planning;
use crate::roots::root_of;
use akl_terms::Name;
use scheduler::Scheduler;
use std::alloc::{AllocError, Global};
use std::collections::{BTreeSet, VecDeque};
use std::marker::Model;
use task_pool::{Hand, push};
use wake_lists::Urgency;

/// The tokens that are with a worker, in a deque or lie with the run, each in one of these alone; and those that lie with the
/// run: those of late places and those of copies. Contracts see the list of all of them and that of those that lie there.
#[derive(Drop)]
pub struct Tokens {
    held: BTreeSet<u64>,
    late: Late,
    copies: Copies,
}

impl Model for Tokens {
    ghost use Rattle.std.specs.Prelude.{◌++◌};
    ghost use Rattle.par_workers.specs.Tokens.{TokensValue};

    ghost Value = { TokensValue };

    ghost view = { λ t. record { held = t.held.keys; lying = t.late ++ t.copies } };
}

impl Tokens {
    /// None yet.
    pub(crate) fn new(alloc: Global) -> Tokens {
        Tokens {
            held: BTreeSet::new(alloc),
            late: Late::new(alloc),
            copies: Copies::new(alloc),
        }
    }

    /// Holds the tokens below this number, and puts each into the deque of one of the hands, these in turn. An `Err`, for want
    /// of memory, comes at the first for which there is no room.
    pub(crate) fn deal(&mut self, hands: &mut Vec<Hand>, count: usize) -> Result<(), AllocError>
        requires { 1 ≤ length hands.old.items }
        ensures count { length hands.new.items ≡ length hands.old.items }
        ensures held { OnOk result ((token : _) → token < count → is_token_in token self.new.held ≡ true) }
        ensures dealt { OnOk result ((token : _) → token < count → IsDealt token hands.new.items) }
    {
        for token in 0..count {
            let number = token % hands.len();
            self.held.insert(token as u64)?;
            deal_one(hands, number, token as u64)?;
        }
        Ok(())
    }

    /// How many are those of late places.
    pub(crate) fn late_count(&self) -> usize {
        self.late.count()
    }

    /// A token comes to a worker's, that of an urgent place before the others, or to those of late places. An `Err`, for want of
    /// memory, loses it.
    pub(crate) fn keep(
        &mut self,
        scheduler: &Scheduler,
        token: u64,
        own: &mut VecDeque<u64>,
    ) -> Result<(), AllocError>
        ensures held { self.new.held ≡ self.old.held }
        ensures stay { StayAtHand own.old.items self.old.lying own.new.items self.new.lying }
        ensures comes { OnOk result (IsAtHand token own.new.items self.new.lying) }
    {
        match scheduler.urgency_of(token) {
            Some(Urgency::Late) => self.put_last(scheduler, token)?,
            Some(Urgency::Urgent) => own.push_front(token)?,
            Some(Urgency::Ordinary) | None => own.push_back(token)?,
        }
        Ok(())
    }

    /// A token comes to those of late places. An `Err`, for want of memory, loses it.
    pub(crate) fn put_last(&mut self, scheduler: &Scheduler, token: u64) -> Result<(), AllocError>
        ensures held { self.new.held ≡ self.old.held }
        ensures stay { (other : _) → is_token_in other self.old.lying ≡ true → is_token_in other self.new.lying ≡ true }
        ensures comes { OnOk result (is_token_in token self.new.lying ≡ true) }
    {
        self.late.add(token, root_of(scheduler, token))
    }

    /// The token of a place that was planned comes back to a worker's, before all others, if the place is still open. Those of
    /// places that were opened are held, and come to the worker's, but for those that some worker has still; where a root box was
    /// split, those of places that aren't in it lie with the run. An `Err`, for want of memory, loses one.
    pub(crate) fn take_in(
        &mut self,
        scheduler: &Scheduler,
        token: u64,
        split: Option<Name>,
        opened: &[u64],
        own: &mut VecDeque<u64>,
    ) -> Result<(), AllocError>
        ensures keeps { KeepsHeld scheduler.now.openings self.old.held self.new.held }
        ensures held { OnOk result ((other : _) → IsNumberIn other opened.now → is_token_in other self.new.held ≡ true) }
        ensures stay { StayAtHand own.old.items self.old.lying own.new.items self.new.lying }
        ensures back { OnOk result (IsSome (opening_at token scheduler.now.openings) → IsAtHand token own.new.items self.new.lying) }
        ensures comes { OnOk result (NewAtHand self.old.held self.new.held own.new.items self.new.lying) }
    {
        self.take_back(scheduler, token, own)?;
        self.hand_out(scheduler, split, opened, own)
    }

    // The token of a place that was planned comes back, if the place is still open.
    fn take_back(
        &mut self,
        scheduler: &Scheduler,
        token: u64,
        own: &mut VecDeque<u64>,
    ) -> Result<(), AllocError>
        ensures keeps { KeepsHeld scheduler.now.openings self.old.held self.new.held }
        ensures only { (other : _) → is_token_in other self.new.held ≡ true → is_token_in other self.old.held ≡ true }
        ensures stay { StayAtHand own.old.items self.old.lying own.new.items self.new.lying }
        ensures back { OnOk result (IsSome (opening_at token scheduler.now.openings) → IsAtHand token own.new.items self.new.lying) }
    {
        match scheduler.urgency_of(token) {
            Some(Urgency::Late) => self.put_last(scheduler, token)?,
            Some(Urgency::Urgent | Urgency::Ordinary) => own.push_front(token)?,
            None => self.let_go(token),
        }
        Ok(())
    }

    // The tokens of places that were opened are held, and come to a worker's, but for those that some worker has still.
    fn hand_out(
        &mut self,
        scheduler: &Scheduler,
        split: Option<Name>,
        opened: &[u64],
        own: &mut VecDeque<u64>,
    ) -> Result<(), AllocError>
        ensures keeps { (other : _) → is_token_in other self.old.held ≡ true → is_token_in other self.new.held ≡ true }
        ensures held { OnOk result ((token : _) → IsNumberIn token opened.now → is_token_in token self.new.held ≡ true) }
        ensures stay { StayAtHand own.old.items self.old.lying own.new.items self.new.lying }
        ensures comes { OnOk result (NewAtHand self.old.held self.new.held own.new.items self.new.lying) }
    {
        for token in opened {
            self.hand_out_one(scheduler, split, *token, own)?;
        }
        Ok(())
    }

    // The same for one token.
    fn hand_out_one(
        &mut self,
        scheduler: &Scheduler,
        split: Option<Name>,
        token: u64,
        own: &mut VecDeque<u64>,
    ) -> Result<(), AllocError>
        ensures keeps { (other : _) → is_token_in other self.old.held ≡ true → is_token_in other self.new.held ≡ true }
        ensures held { OnOk result (is_token_in token self.new.held ≡ true) }
        ensures stay { StayAtHand own.old.items self.old.lying own.new.items self.new.lying }
        ensures comes { OnOk result (NewAtHand self.old.held self.new.held own.new.items self.new.lying) }
    {
        if self.held.insert(token)? {
            self.place(scheduler, split, token, own)?;
        }
        Ok(())
    }

    // The token of a place that was opened comes to those of copies, where a root box was split and the place isn't in it, and
    // else to a worker's, or to those of late places.
    fn place(
        &mut self,
        scheduler: &Scheduler,
        split: Option<Name>,
        token: u64,
        own: &mut VecDeque<u64>,
    ) -> Result<(), AllocError>
        ensures held { self.new.held ≡ self.old.held }
        ensures stay { StayAtHand own.old.items self.old.lying own.new.items self.new.lying }
        ensures comes { OnOk result (IsAtHand token own.new.items self.new.lying) }
    {
        if split.is_some() {
            let root = root_of(scheduler, token);
            if root != split {
                return self.copies.add(token, root);
            }
        }
        self.keep(scheduler, token, own)
    }

    /// Whether a copy lies with the run.
    pub(crate) fn have_copy(&self) -> bool {
        self.copies.count() > 0
    }

    /// A worker passes by the copies that has tokens. Whether it is to take the first copy besides.
    pub(crate) fn pass_copies(&mut self) -> bool
        ensures { self.new ≡ self.old }
    {
        self.copies.pass()
    }

    /// The tokens of the copy that was made last come to a worker's, in their order before all others, or to those of late
    /// places. An `Err`, for want of memory, loses one.
    pub(crate) fn take_last_copy(
        &mut self,
        scheduler: &Scheduler,
        own: &mut VecDeque<u64>,
    ) -> Result<(), AllocError>
        ensures held { self.new.held ≡ self.old.held }
        ensures stay { OnOk result (StayAtHand own.old.items self.old.lying own.new.items self.new.lying) }
    {
        let root = self.copies.last_root();
        for _ in 0..self.copies.count() {
            let Some(token) = self.take_last_copied(root) else {
                break;
            };
            self.keep_first(scheduler, token, own)?;
        }
        Ok(())
    }

    /// The tokens of the copy that was made first come to a worker's, in their order, or to those of late places. An `Err`, for
    /// want of memory, loses one.
    pub(crate) fn take_first_copy(
        &mut self,
        scheduler: &Scheduler,
        own: &mut VecDeque<u64>,
    ) -> Result<(), AllocError>
        ensures held { self.new.held ≡ self.old.held }
        ensures stay { OnOk result (StayAtHand own.old.items self.old.lying own.new.items self.new.lying) }
    {
        let root = self.copies.first_root();
        for _ in 0..self.copies.count() {
            let Some(token) = self.take_first_copied(root) else {
                break;
            };
            self.keep(scheduler, token, own)?;
        }
        Ok(())
    }

    // Takes the last token among those of copies, if it is of the copy with this root box.
    fn take_last_copied(&mut self, root: Option<Name>) -> Option<u64>
        ensures held { self.new.held ≡ self.old.held }
        ensures lying { IsTakenFrom self.old.lying result self.new.lying }
    {
        self.copies.take_last(root)
    }

    // Takes the first token among those of copies, if it is of the copy with this root box.
    fn take_first_copied(&mut self, root: Option<Name>) -> Option<u64>
        ensures held { self.new.held ≡ self.old.held }
        ensures lying { IsTakenFrom self.old.lying result self.new.lying }
    {
        self.copies.take_first(root)
    }

    // A token comes to a worker's before all others, or to those of late places.
    fn keep_first(
        &mut self,
        scheduler: &Scheduler,
        token: u64,
        own: &mut VecDeque<u64>,
    ) -> Result<(), AllocError>
        ensures held { self.new.held ≡ self.old.held }
        ensures stay { StayAtHand own.old.items self.old.lying own.new.items self.new.lying }
        ensures comes { OnOk result (IsAtHand token own.new.items self.new.lying) }
    {
        match scheduler.urgency_of(token) {
            Some(Urgency::Late) => self.put_last(scheduler, token)?,
            Some(Urgency::Urgent | Urgency::Ordinary) | None => own.push_front(token)?,
        }
        Ok(())
    }

    /// Lets a token go.
    pub(crate) fn let_go(&mut self, token: u64)
        ensures held { Drops self.old.held self.new.held token }
        ensures lying { self.new.lying ≡ self.old.lying }
    {
        self.held.remove(&token);
    }

    /// Takes the next token among those of late places in whose root boxes no other worker plans, if its place comes last no
    /// more.
    pub(crate) fn take_next(
        &mut self,
        scheduler: &Scheduler,
        planning: &Planning,
        worker: u32,
    ) -> Option<u64>
        ensures held { self.new.held ≡ self.old.held }
        ensures lying { IsTakenFrom self.old.lying result self.new.lying }
    {
        self.late.take_next(scheduler, planning, worker)
    }

    /// Takes the last token among those of late places whose place isn't put off, and stands in no root box in which another
    /// worker plans.
    pub(crate) fn take_last(
        &mut self,
        scheduler: &Scheduler,
        planning: &Planning,
        worker: u32,
    ) -> Option<u64>
        ensures held { self.new.held ≡ self.old.held }
        ensures lying { IsTakenFrom self.old.lying result self.new.lying }
    {
        self.late.take_last(scheduler, planning, worker)
    }
}

// Puts a token into the deque of the hand of this number.
fn deal_one(hands: &mut Vec<Hand>, number: usize, token: u64) -> Result<(), AllocError>
    requires { number < length hands.old.items }
    ensures count { length hands.new.items ≡ length hands.old.items }
    ensures still { (other : _) → IsDealt other hands.old.items → IsDealt other hands.new.items }
    ensures dealt { OnOk result (IsDealt token hands.new.items) }
{
    match push(&mut hands[number], token) {
        Ok(()) => Ok(()),
        Err(_) => Err(AllocError),
    }
}
