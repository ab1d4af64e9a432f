//! The state of a run with its open places.

ghost use Rattle.std.specs.Prelude.{◌≡◌, ◌<◌, [], length, option_map, None, IfOk, IfErr, IfNone, true};
ghost use Rattle.wake_lists.specs.Open.{IsFirst, IsPutLast, untimed, opening_at, closed};
ghost use Rattle.wake_lists.specs.declared.turn.Urgency.{Urgency};
ghost use Rattle.scheduler.specs.Schedulers.{IsScheduler, AllOpen, IsQuiet, HasGone};
ghost use Rattle.scheduler.specs.Opening.{AreOpened};
ghost use Rattle.scheduler.specs.AllPlaces.{AreAllOpen, AreAllPlaced};

use crate::hints::{Hints, most_hints};
use crate::opening::open_all;
use crate::placing::push_those;
use crate::splits::Splits;
use akl_terms::{Name, Place, Steps, Var};
use opened_places::Placed;
use std::alloc::{AllocError, Global};
use std::marker::{Brand, Model};
use std::sync::ledger::{Blank, Ledger};
use step_commit::Core;
use wake_lists::{Open, Urgency, Waits};

/// The state of a run, with the places at which a rule may apply, which are open, and the variables on which the others
/// wait. A place that isn't open isn't ready, or it is a box that is ready by a split alone and has an open place in it.
#[derive(Drop)]
pub struct Scheduler {
    pub(crate) core: Core,
    pub(crate) open: Open,
    pub(crate) waits: Waits,
    // The choices by which boxes could be split; one that is open may be missing.
    pub(crate) splits: Splits,
    // The labels since late places came as ordinary ones.
    pub(crate) labels: usize,
    // The late calls that come as ordinary places once a variable is bound.
    pub(crate) hints: Hints,
}

impl Model for Scheduler {
    ghost use Rattle.scheduler.specs.Schedulers.{SchedulerValue};
    ghost use Rattle.scheduler.specs.Splits.{KeepsSplits};

    ghost Value = { SchedulerValue };

    ghost view = { λ s. record { core = s.core; openings = s.open; waits = s.waits } };

    ghost invariant = { λ s. KeepsSplits (record { core = s.core; openings = s.open; waits = s.waits }) s.splits };
}

impl Scheduler {
    /// The scheduler of a core without labels: each of its places is open.
    pub fn new(alloc: Global, core: Core) -> Result<Scheduler, AllocError>
        requires { core.journal ≡ [] }
        ensures core { IfOk result (λ s. s.core ≡ core) }
        ensures open { IfOk result AllOpen }
        ensures waits { IfOk result (λ s. s.waits ≡ []) }
    {
        let open = open_places(alloc, &core)?;
        Ok(Scheduler {
            core,
            open,
            waits: Waits::new(alloc),
            splits: Splits::new(alloc),
            labels: 0,
            hints: Hints::new(alloc),
        })
    }

    /// The core.
    pub fn core(&self) -> &Core
        ensures core { result.now ≡ self.now.core }
        ensures scheduler { IsScheduler self.now }
    {
        &self.core
    }

    /// The token of the place that comes first. `None` exactly where no place is open; then no place is ready.
    pub fn first_open(&self) -> Option<u64>
        ensures first { IsFirst self.now.openings result }
        ensures quiet { IfNone result (IsQuiet self.now) }
    {
        self.open.first()
    }

    /// The open place with this token; `None` exactly where there is none.
    pub fn place_of(&self, token: u64) -> Option<Place>
        ensures { result ≡ option_map (λ o. o.place) (opening_at token self.now.openings) }
    {
        self.open.place_of(token)
    }

    /// How urgent the open place with this token is; `None` exactly where there is none.
    pub fn urgency_of(&self, token: u64) -> Option<Urgency>
        ensures { result ≡ option_map (λ o. o.turn.urgency) (opening_at token self.now.openings) }
    {
        self.open.urgency_of(token)
    }

    /// Whether no place is open; then none is ready.
    pub fn is_quiet(&self) -> bool
        ensures quiet { result ≡ true → IsQuiet self.now }
        ensures none { result ≡ true → self.now.openings ≡ [] }
        ensures some { self.now.openings ≡ [] → result ≡ true }
    {
        self.open.count() == 0
    }

    /// How many places are open.
    pub fn open_count(&self) -> usize
        ensures { result ≡ length self.now.openings }
    {
        self.open.count()
    }

    /// Puts the open place with this token behind all others, as a late one, until a label makes it come sooner, or sixteen
    /// labels were made for each open place. An `Err`, for want of memory, leaves all as it was.
    pub fn postpone(&mut self, token: u64) -> Result<(), AllocError>
        ensures put { IfOk result (λ _. IsPutLast self.old.openings self.new.openings Urgency.Late token) }
        ensures places { untimed self.new.openings ≡ untimed self.old.openings }
        ensures core { self.new.core ≡ self.old.core }
        ensures waits { self.new.waits ≡ self.old.waits }
        ensures unchanged { IfErr result (λ _. self.new ≡ self.old) }
    {
        self.open.put_last(token, Urgency::Late)
    }

    /// The same, but it is ordinary again once this variable is bound, if there is one, the place is a goal and memory suffices.
    pub fn wait_for(&mut self, token: u64, on: Option<Var>) -> Result<(), AllocError>
        ensures put { IfOk result (λ _. IsPutLast self.old.openings self.new.openings Urgency.Late token) }
        ensures places { untimed self.new.openings ≡ untimed self.old.openings }
        ensures core { self.new.core ≡ self.old.core }
        ensures waits { self.new.waits ≡ self.old.waits }
        ensures unchanged { IfErr result (λ _. self.new ≡ self.old) }
    {
        self.postpone(token)?;
        self.hint(token, on);
        Ok(())
    }

    // Once this variable is bound, if there is one, the open goal with this token is ordinary again, if memory suffices.
    fn hint(&mut self, token: u64, on: Option<Var>)
        ensures { self.new ≡ self.old }
    {
        let Some(variable) = on else {
            return;
        };
        if let Some(Place::Goal(goal)) = self.open.place_of(token) {
            let most = most_hints(self.open.count());
            let _ = self.hints.add(variable, goal, most);
        }
    }

    /// Closes the open place with this token, which has gone.
    pub fn forget(&mut self, token: u64)
        requires { HasGone self.old token }
        ensures closed { self.new ≡ record self.old { openings = closed token self.old.openings } }
        ensures gone { opening_at token self.new.openings ≡ None }
    {
        self.open.close(token);
    }

    /// The core.
    pub fn into_core(self) -> Core
        ensures { result ≡ self.core }
    {
        self.core
    }
}

// All places of a core, open.
fn open_places(alloc: Global, core: &Core) -> Result<Open, AllocError>
    ensures { IfOk result (AreAllOpen core.now) }
{
    let places = placed_places(alloc, core)?;
    open_placed::<Brand>(alloc, places.as_slice(), Blank::new(1))
}

// These places, open, by a counter of its own.
fn open_placed<L: Ledger>(
    alloc: Global,
    places: &[Placed],
    blank: Blank,
) -> Result<Open, AllocError>
    requires name { blank.name ≡ L.name }
    requires parts { blank.parts ≡ L.parts }
    requires some { 0 < blank.parts }
    ensures { IfOk result (λ open_places. (tokens : _) × AreOpened [] places.now open_places tokens) }
{
    let mut steps = Steps::<L>::new(blank);
    let mut open_places = Open::new(alloc);
    let _ = open_all(alloc, &mut open_places, places, &mut steps)?;
    Ok(open_places)
}

// All places of a core, with the boxes around them.
fn placed_places(alloc: Global, core: &Core) -> Result<Vec<Placed>, AllocError>
    ensures { IfOk result (λ places. AreAllPlaced core.now places.items) }
{
    let places = core.places(alloc)?;
    let mut placed = Vec::new(alloc);
    push_those(alloc, core.table(), places.as_slice(), &mut placed)?;
    Ok(placed)
}
