//! The place that a worker plans next.

ghost use Rattle.std.specs.Prelude.{◌≡◌, IfOk, IfSome};
ghost use Rattle.par_workers.specs.Turns.{IsSeenIn, IsChosenIn};

use crate::looking::{Look, find_next};
use crate::shared::SharedRun;
use std::alloc::{AllocError, Global};
use std::collections::VecDeque;

// So many turns in a row may find nothing while no worker plans.
const MOST_VAIN: u32 = 500;

/// What a worker does next.
#[derive(Drop)]
pub enum Chosen {
    /// It plans at a place.
    At(Look),
    /// It waits: it has no token of a place that is there, the late places are put off, and some place is open.
    Wait,
    /// It ends: no place is open, or all workers are to stop.
    End,
}

impl SharedRun {
    /// Looks at the place of the first of a worker's tokens whose place is there, and doesn't come last; the first is the one
    /// that it has drawn. A worker without tokens takes those of a copy first. Where there is no such place, it looks at a late
    /// one that isn't put off, and in whose root box no other worker plans: these come last of all. A worker that gives way
    /// looks at none, unless it has drawn a token. Want of memory stops all workers, and so do many turns in a row in which none
    /// planned or found a place.
    pub(crate) fn choose(
        &mut self,
        alloc: Global,
        worker: u32,
        drawn: Option<u64>,
        gives_way: bool,
        tokens: &mut VecDeque<u64>,
    ) -> Chosen
        ensures same { self.new ≡ self.old }
        ensures chosen { IsChosenIn self.old worker result }
    {
        if self.stops {
            return Chosen::End;
        }
        if gives_way && drawn.is_none() {
            self.planning.end(worker);
            return Chosen::Wait;
        }
        match self.try_choose(alloc, worker, drawn, tokens) {
            Ok(Some(look)) => self.choose_at(worker, look),
            Ok(None) => {
                if self.is_to_wait(worker) {
                    Chosen::Wait
                } else {
                    Chosen::End
                }
            }
            Err(_) => {
                self.stop();
                Chosen::End
            }
        }
    }

    // The worker plans from now on where it looked.
    fn choose_at(&mut self, worker: u32, look: Look) -> Chosen
        requires { IsSeenIn self.old worker look.sight }
        ensures same { self.new ≡ self.old }
        ensures chosen { IsChosenIn self.old worker result }
    {
        self.vain = 0;
        match self.planning.begin(worker, look.sight.root()) {
            Ok(()) => Chosen::At(look),
            Err(_) => {
                self.stop();
                Chosen::End
            }
        }
    }

    // Whether a worker that found no place, and so plans nowhere, is to wait for one.
    fn is_to_wait(&mut self, worker: u32) -> bool
        ensures { self.new ≡ self.old }
    {
        self.planning.end(worker);
        self.vain = if self.planning.is_any() {
            0
        } else {
            self.vain.saturating_add(1)
        };
        if self.vain > MOST_VAIN {
            self.stop();
        }
        !self.stops && !self.scheduler.is_quiet()
    }

    // The look at the next place, if one is found.
    fn try_choose(
        &mut self,
        alloc: Global,
        worker: u32,
        drawn: Option<u64>,
        tokens: &mut VecDeque<u64>,
    ) -> Result<Option<Look>, AllocError>
        ensures same { self.new ≡ self.old }
        ensures look { IfOk result (λ found. IfSome found (λ look. IsSeenIn self.old worker look.sight)) }
    {
        find_next(
            alloc,
            &mut self.scheduler,
            &mut self.tokens,
            &self.planning,
            worker,
            drawn,
            tokens,
        )
    }
}
