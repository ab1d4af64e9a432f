//! Labels that are committed, with the places that they open.

ghost use Rattle.std.specs.Prelude.{◌≡◌, ⊤, IfOk, IfErr};
ghost use Rattle.step_commit.specs.Cores.{MayCommit, IsFresh, IsRefused};
ghost use Rattle.opened_places.specs.Gone.{AreGone};
ghost use Rattle.scheduler.specs.Listing.{AreListedFor};
ghost use Rattle.scheduler.specs.Once.{IsEachPlaceOnce};
ghost use Rattle.opened_places.specs.Placed.{places_of};
ghost use Rattle.scheduler.specs.Committed.{CommitsAndOpens, CommitsWithTurns, OpensAmong};
ghost use Rattle.scheduler.specs.Work.{TakesSteps};
ghost use Rattle.scheduler.specs.Counting.{TakesLabelSteps};

use crate::counting::{count, count_written};
use crate::dropping::{drop_gone, drop_opened, leave_gone, place_under};
use crate::effects::Effects;
use crate::opening::{close_all, open_all};
use crate::scheduler::Scheduler;
use crate::splits::splits_of;
use akl_model::Receipt;
use akl_terms::{Place, Steps};
use box_tree::Plan;
use opened_places::Placed;
use smallvec::SmallVec;
use std::alloc::{AllocError, Global};
use std::sync::ledger::Ledger;
use step_commit::CommitError;

/// A plan that was committed.
#[derive(Drop)]
pub struct Committed {
    /// The receipt of its first label; those behind it were planned by the same labels.
    pub receipt: Receipt,
    /// The tokens of the places that it opened and that weren't open before, each once.
    pub opened: SmallVec<u64, 4>,
}

impl Scheduler {
    /// Appends the plan's labels, makes their step, and opens exactly the places that it can have made ready: those that are
    /// new or changed, those that wait on a variable that it binds or makes equal, and all in a box whose equations come to
    /// bind a variable from outside. Of these the boxes are urgent that have a goal by which they fail, that the step
    /// leaves unsolved, or that may clash with what it tells. The labels' own place closes where it has gone. An `Err` leaves
    /// all as it was.
    ///
    /// It counts at most a step for each item that the plan read, each label behind the first one, each content that it
    /// writes, each place that it takes away, each place that it opens, each box around such a place, and each wait of a place
    /// that it opens or takes away. The stamps, the labels and the contents are counted before the core reads and writes them.
    /// Not counted is what closes: a box's count of what is open in it goes down once for each time that it went up, as a place
    /// opened; and a choice by which its box could be split is given up once for each time that it was kept. Nor are the looks
    /// by which these places are found, nor those by which it is found which of them are such choices, nor those by which they
    /// get their turns.
    pub fn commit<L: Ledger>(
        &mut self,
        alloc: Global,
        plan: Plan,
        steps: &mut Steps<L>,
    ) -> Result<Committed, CommitError>
        requires { MayCommit self.old.core plan }
        ensures committed { IfOk result (CommitsAndOpens self.old plan self.new) }
        ensures refused { IfErr result (IsRefused self.old.core plan) }
        ensures unchanged { IfErr result (λ _. self.new ≡ self.old) }
        ensures steps { TakesSteps self.old plan steps.old steps.new }
    {
        count(plan.reads().len(), steps);
        if let Some(refused) = self.core.refusal(&plan) {
            return Err(refused);
        }
        let committed = self.commit_fresh(alloc, plan, steps)?;
        Ok(committed)
    }

    // The same for a plan that isn't refused.
    fn commit_fresh<L: Ledger>(
        &mut self,
        alloc: Global,
        plan: Plan,
        steps: &mut Steps<L>,
    ) -> Result<Committed, AllocError>
        requires may { MayCommit self.old.core plan }
        requires fresh { IsFresh self.old.core plan }
        ensures committed { IfOk result (CommitsAndOpens self.old plan self.new) }
        ensures unchanged { IfErr result (λ _. self.new ≡ self.old) }
        ensures steps { TakesLabelSteps self.old plan steps.old steps.new }
    {
        let effects = Effects::of(alloc, self.core.table(), &self.waits, &self.hints, &plan)?;
        let opened = effects.opened.as_slice();
        let gone = effects.gone.as_slice();
        let committed = self.commit_opening(alloc, plan, opened, gone, steps)?;
        self.set_turns(opened, gone, &effects.hints, effects.waiting.as_slice());
        Ok(committed)
    }

    // The same where these places go and these open; when each comes is left open. The choices among all these places by which boxes
    // could be split are kept no more.
    fn commit_opening<L: Ledger>(
        &mut self,
        alloc: Global,
        plan: Plan,
        places: &[Placed],
        gone: &[Place],
        steps: &mut Steps<L>,
    ) -> Result<Committed, AllocError>
        requires may { MayCommit self.old.core plan }
        requires fresh { IsFresh self.old.core plan }
        requires gone { AreGone self.old.core.table plan.label plan.step gone.now }
        requires once { IsEachPlaceOnce gone.now }
        requires places { AreListedFor self.old.core.table self.old.waits plan gone.now places.now }
        ensures committed { IfOk result (CommitsWithTurns ⊤ self.old plan self.new) }
        ensures opened { IfOk result (λ _. OpensAmong self.old self.new (places_of places.now)) }
        ensures unchanged { IfErr result (λ _. self.new ≡ self.old) }
        ensures steps { TakesLabelSteps self.old plan steps.old steps.new }
    {
        let ended = splits_of(alloc, self.core.table(), &self.splits, places, gone)?;
        let place = plan.label().place;
        let own = self.open.token_of(place);
        count_written(&plan, steps);
        let opened = open_all(alloc, &mut self.open, places, steps)?;
        match self.core.append(alloc, plan) {
            Ok(receipt) => {
                // By this call it is known that the core is one still.
                let _ = self.core.table();
                drop_opened(&mut self.waits, &self.open, opened.as_slice(), steps);
                drop_gone(&mut self.waits, place_under(own, place), gone, steps);
                leave_gone(&mut self.open, own, place, gone);
                self.splits.remove_all(ended.as_slice());
                Ok(Committed { receipt, opened })
            }
            Err(error) => {
                close_all(&mut self.open, opened);
                Err(error)
            }
        }
    }
}
