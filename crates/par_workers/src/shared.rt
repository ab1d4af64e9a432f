//! What the workers of a run share.

ghost use Rattle.std.specs.Prelude.{◌≡◌, ◌≤◌, [], length, IfOk};
ghost use Rattle.par_workers.specs.Shared.{core_after, IsShared};

use crate::made::Made;
use crate::planning::Planning;
use crate::tokens::Tokens;
use scheduler::Scheduler;
use std::alloc::{AllocError, Global};
use std::marker::Model;
use std::snapshot::Snapshot;
use step_commit::Core;
use task_pool::Hand;
use turn_lock::Booked;

/// The state of a run with its open places and their tokens. It has besides in which root boxes workers plan, how many turns in a row
/// found nothing while none planned, and whether all workers are to stop; unless they are, the token of each open place is
/// held. It remembers in no bytes the core with which the run began, and what was made since.
#[derive(Drop)]
pub struct SharedRun {
    begun: Snapshot<Core>,
    pub(crate) past: Vec<Made>,
    pub(crate) scheduler: Scheduler,
    pub(crate) tokens: Tokens,
    pub(crate) planning: Planning,
    pub(crate) vain: u32,
    pub(crate) stops: bool,
}

impl Model for SharedRun {
    ghost use Rattle.par_workers.specs.Shared.{SharedValue};
    ghost use Rattle.par_workers.specs.Sharing.{IsSharedRun};

    ghost Value = { SharedValue };

    ghost view = { λ s. record { begun = s.begun.value; past = s.past.items } };

    ghost invariant = { λ s. IsSharedRun (record { begun = s.begun.value; past = s.past.items }) s.scheduler s.tokens.held s.stops };
}

impl Booked for SharedRun {
    type Fixed = Core;

    type Entry = Made;

    ghost use Rattle.par_workers.specs.Shared.{maker};

    ghost fixed = { λ s. s.begun };

    ghost history = { λ s. s.past };

    ghost maker = { maker };
}

impl SharedRun {
    /// The run of a core without labels. The tokens of all its open places are put into the deques of the hands, these in turn;
    /// where a deque has no room for one, all workers are to stop from the start.
    pub(crate) fn new(
        alloc: Global,
        core: Core,
        hands: &mut Vec<Hand>,
    ) -> Result<SharedRun, AllocError>
        requires begins { core.journal ≡ [] }
        requires some { 1 ≤ length hands.old.items }
        ensures run { IfOk result (λ s. s ≡ record { begun = core; past = [] }) }
        ensures hands { length hands.new.items ≡ length hands.old.items }
    {
        let begun = Snapshot::of(&core);
        let scheduler = Scheduler::new(alloc, core)?;
        let mut tokens = Tokens::new(alloc);
        let dealt = tokens.deal(hands, scheduler.open_count());
        Ok(SharedRun {
            begun,
            past: Vec::new(alloc),
            scheduler,
            tokens,
            planning: Planning::new(alloc),
            vain: 0,
            stops: dealt.is_err(),
        })
    }

    /// All workers are to stop.
    pub(crate) fn stop(&mut self)
        ensures { self.new ≡ self.old }
    {
        self.stops = true;
    }

    /// For how many labels the budget has room still.
    pub(crate) fn left(&self) -> u64 {
        self.scheduler.core().left()
    }

    /// Whether a copy lies with the run, whose tokens no worker has.
    pub(crate) fn has_copy(&self) -> bool {
        self.tokens.have_copy()
    }

    /// The state of the run.
    pub(crate) fn into_scheduler(self) -> Scheduler
        ensures core { result.core ≡ core_after self.begun self.past }
        ensures shared { IsShared self result.core }
    {
        self.scheduler
    }
}
