//! Places that aren't ready, and are closed until something that they wait on is told.

ghost use Rattle.std.specs.Prelude.{◌≡◌, Some, true, false, IfOk, IfErr};
ghost use Rattle.wake_lists.specs.Open.{IsOpen, closed};
ghost use Rattle.wake_lists.specs.Waits.{waits_on};
ghost use Rattle.box_tree.specs.Drops.{IsOfRun};
ghost use Rattle.scheduler.specs.Settling.{OpensCandidate, opened_box};
ghost use Rattle.scheduler.specs.Dropping.{closed_one, DropsWaits};
ghost use Rattle.scheduler.specs.Settled.{MaySettle, IsFreshIdle, HasNoReasonNow, IsSeenEnough, IsFoundIdle, Settles, IsUnchanged, IsNotSettled};

use crate::candidates::quiet_candidate;
use crate::dropping::close_one;
use crate::scheduler::Scheduler;
use crate::turns::is_failing;
use akl_model::Item;
use akl_terms::{Name, Place, Var};
use box_tree::Table;
use idle_places::Idle;
use opened_places::placed_at;
use std::alloc::{AllocError, Global};
use wake_lists::{Open, Urgency, Waits};

/// Why a place isn't settled. The scheduler is as it was.
#[derive(Clone, Copy)]
pub enum SettleError {
    /// A label that wasn't seen when the place was found idle changed an item that was read: the first such item, with the
    /// number of the last label that changed it, or `None` where the item has gone. This is tested first.
    Stale { item: Item, stamp: Option<u64> },
    /// The place is a box that was found idle without a look inside, and by now it has a goal by which it fails, or a
    /// candidate of a split, or something is open in it. A look inside tells whether it is ready.
    LookInside,
    /// There was no memory.
    Memory(AllocError),
}

impl From<AllocError> for SettleError {
    ghost use Rattle.std.specs.Prelude.{◌≡◌};
    ghost use Rattle.scheduler.specs.declared.settling.SettleError.TheVariants as variants;

    ghost from_gives = { λ cause error. error ≡ variants.Memory cause };

    fn from(error: AllocError) -> Self {
        SettleError::Memory(error)
    }
}

impl Scheduler {
    /// Closes an open place that isn't ready, keeps its waits, and opens the nearest box around it that could be split,
    /// where nothing else is open that is this box or stands in it: the token of this box. A place that isn't open is
    /// left alone. An `Err` leaves all as it was.
    pub fn settle(&mut self, alloc: Global, idle: &Idle) -> Result<Option<u64>, SettleError>
        requires { MaySettle self.old.core idle.now }
        ensures settled { IfOk result (Settles self.old idle.now.place idle.now.on self.new) }
        ensures fresh { IfOk result (λ _. IsFreshIdle self.old.core idle.now) }
        ensures seen { IfOk result (λ _. IsSeenEnough self.old idle.now) }
        ensures refused { IfErr result (IsNotSettled self.old idle.now) }
        ensures unchanged { IfErr result (λ _. IsUnchanged self.old self.new) }
    {
        if let Some((item, stamp)) = self.core.stale(idle.reads(), idle.seen()) {
            return Err(SettleError::Stale { item, stamp });
        }
        if self.is_to_look_inside(idle) {
            return Err(SettleError::LookInside);
        }
        let opened = self.settle_idle(alloc, idle.place(), idle.on())?;
        Ok(opened)
    }

    // Whether a place was found idle without a look inside, and may be ready now by what stands inside it.
    fn is_to_look_inside(&self, idle: &Idle) -> bool
        ensures enough { result ≡ false → IsSeenEnough self.now idle.now }
        ensures little { result ≡ true → IsSeenEnough self.now idle.now → ⊥ }
    {
        if idle.looked_inside() {
            return false;
        }
        match idle.place() {
            Place::Box(name) => self.has_reason(name),
            Place::Goal(_) => false,
        }
    }

    // Whether something is open in a box, or the box has a goal by which it fails, or a candidate of a split. Where nothing is
    // open in it, each of its choices by which it could be split is kept.
    fn has_reason(&self, name: Name) -> bool
        ensures none { result ≡ false → HasNoReasonNow self.now name }
        ensures some { result ≡ true → HasNoReasonNow self.now name → ⊥ }
    {
        if self.open.busy(name) {
            return true;
        }
        is_failing(self.core.table(), name) || self.splits.has_box(name)
    }

    // The same for a place that is idle now.
    fn settle_idle(
        &mut self,
        alloc: Global,
        place: Place,
        on: &[Var],
    ) -> Result<Option<u64>, AllocError>
        requires { IsFoundIdle self.old.core place on.now }
        ensures settled { IfOk result (Settles self.old place on.now self.new) }
        ensures unchanged { IfErr result (λ _. IsUnchanged self.old self.new) }
    {
        let Some(own) = self.open.token_of(place) else {
            return Ok(None);
        };
        self.splits.keep(self.core.table(), place)?;
        let nearest = quiet_candidate(self.core.table(), &self.open, &self.splits, own, place);
        let found = open_candidate(alloc, self.core.table(), &mut self.open, nearest)?;
        if let Err(error) = self.waits.suspend(place, on) {
            close_one(&mut self.open, found);
            return Err(error);
        }
        self.open.close(own);
        drop_candidate(&mut self.waits, nearest, found);
        Ok(found)
    }
}

// Opens the nearest box that could be split, where it isn't open: its token.
fn open_candidate(
    alloc: Global,
    table: &Table,
    open_places: &mut Open,
    nearest: Option<Name>,
) -> Result<Option<u64>, AllocError>
    requires { IsOfRun table.now }
    ensures opened { IfOk result (OpensCandidate table.now open_places.old nearest open_places.new) }
    ensures unchanged { IfErr result (λ _. open_places.new ≡ open_places.old) }
{
    let Some(name) = nearest else {
        return Ok(None);
    };
    let place = Place::Box(name);
    if open_places.token_of(place).is_some() {
        return Ok(None);
    }
    match placed_at(alloc, table, place)? {
        Some(placed) => {
            let token = open_places.open_new(place, placed.around(), Urgency::Ordinary)?;
            Ok(Some(token))
        }
        None => Ok(None),
    }
}

// The nearest box waits no more, where it was opened.
fn drop_candidate(waits: &mut Waits, nearest: Option<Name>, found: Option<u64>)
    ensures { DropsWaits waits.old (opened_box nearest found) waits.new }
{
    let Some(name) = nearest else {
        return;
    };
    if found.is_some() {
        let _ = waits.drop_place(Place::Box(name));
    }
}
