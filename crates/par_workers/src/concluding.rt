//! What a worker planned, committed or settled.

ghost use Rattle.std.specs.Prelude.{◌≡◌, ◌≤◌, ◌+◌, ◌-◌, ◌||◌, ◌++◌, false, is_err, drop, length, IfSome, vec_len, vec_capacity};
ghost use Rattle.step_commit.specs.Receipts.{receipts_from};
ghost use Rattle.turn_lock.specs.Histories.{GoesOnBy};
ghost use Rattle.scheduler.specs.Openings.{KeepsTokens};
ghost use Rattle.par_workers.specs.Shared.{maker, AreReceiptsOf};
ghost use Rattle.par_workers.specs.Tokens.{AreHeld};
ghost use Rattle.par_workers.specs.Turns.{IsFoundBefore, HasConcluded, label_count};
ghost use Rattle.place_steps.specs.declared.next.Next.TheVariants as next;

use crate::made::Made;
use crate::shared::SharedRun;
use crate::tokens::Tokens;
use akl_model::{Label, Receipt, Rule};
use akl_terms::{Name, Place, Steps, Var};
use box_tree::{Plan, Table};
use idle_places::Idle;
use place_steps::Next;
use scheduler::{Committed, Scheduler, SettleError};
use seq_engine::push_receipts;
use smallvec::SmallVec;
use std::alloc::{AllocError, Global};
use std::collections::VecDeque;
use std::snapshot::Snapshot;
use std::sync::ledger::Ledger;
use step_commit::{CommitError, Core};

/// What comes next at a place, where this is known, and the token that led there.
#[derive(Drop)]
pub struct Planned {
    pub token: u64,
    pub next: Option<Next>,
    /// The variable that stands in the way of a call that waits for it.
    pub on: Option<Var>,
}

/// How many labels were planned.
pub(crate) fn label_count(planned: &Option<Planned>) -> usize
    ensures { result ≡ label_count planned.now }
{
    let Some(found) = planned else {
        return 0;
    };
    let Some(Next::Plan(plan)) = &found.next else {
        return 0;
    };
    plan.more().len() + 1
}

impl SharedRun {
    /// Commits or settles what a worker planned, if it planned anything; there is room for the receipts. The token of the place
    /// itself comes back to the worker's where it is still open, before all others, and the tokens of places that this opens
    /// come too: of urgent ones first, of others last. What is stale comes last, but the place of a call at once that is
    /// refused comes first, and `true` is answered: a plan of one label is to be made there. Where all labels of the budget are
    /// made, or memory is wanting, all workers are to stop.
    pub(crate) fn conclude<L: Ledger>(
        &mut self,
        alloc: Global,
        worker: u32,
        planned: Option<Planned>,
        receipts: &mut Vec<Receipt>,
        tokens: &mut VecDeque<u64>,
        steps: &mut Steps<L>,
    ) -> bool
        requires worker { (1 ≤ worker) × (worker ≤ self.old.begun.workers) }
        requires planned { IfSome planned (λ p. IfSome p.next (IsFoundBefore self.old worker)) }
        requires room { vec_len receipts.old + label_count planned ≤ vec_capacity receipts.old }
        ensures { HasConcluded worker self.old receipts.old.items self.new receipts.new.items }
    {
        let Some(Planned { token, next, on }) = planned else {
            return false;
        };
        match next {
            Some(Next::Plan(plan)) => self.commit(
                alloc, worker, plan, token, receipts, tokens, steps,
            ),
            Some(Next::Idle(idle)) => {
                self.settle(alloc, worker, token, idle, tokens);
                false
            }
            None => {
                self.put_off(token, on, tokens);
                false
            }
        }
    }

    // Commits a plan for the place with this token; `true` where it is a call at once that is refused.
    fn commit<L: Ledger>(
        &mut self,
        alloc: Global,
        worker: u32,
        plan: Plan,
        token: u64,
        receipts: &mut Vec<Receipt>,
        tokens: &mut VecDeque<u64>,
        steps: &mut Steps<L>,
    ) -> bool
        requires worker { (1 ≤ worker) × (worker ≤ self.old.begun.workers) }
        requires plan { IsFoundBefore self.old worker (next.Plan plan) }
        requires room { vec_len receipts.old + (length plan.more + 1) ≤ vec_capacity receipts.old }
        ensures { HasConcluded worker self.old receipts.old.items self.new receipts.new.items }
    {
        if self.past.reserve(1).is_err() {
            self.stop();
            return false;
        }
        let is_call = !plan.more().is_empty();
        let planned = Snapshot::of(&plan);
        // By this call it is known that the core is one before its labels.
        let _ = self.scheduler.core();
        match self.scheduler.commit(alloc, plan, steps) {
            Ok(Committed { receipt, opened }) => {
                let core = self.scheduler.core();
                let made = Made::of(planned, core.table());
                let split = split_root(core.table(), &receipt.label);
                push_labels(core, receipt, receipts);
                self.past.push_reserved(made);
                take_opened(
                    &mut self.stops,
                    &mut self.tokens,
                    &self.scheduler,
                    token,
                    split,
                    opened,
                    tokens,
                );
                false
            }
            Err(CommitError::Short { left: _ } | CommitError::Stale { item: _, stamp: _ }) => {
                self.take_refused(token, is_call, tokens);
                is_call
            }
            Err(CommitError::Spent { budget: _ } | CommitError::Memory(_)) => {
                self.stop();
                false
            }
        }
    }

    // Settles the idle place with this token. One that is stale, or is to be looked at inside, stays open.
    fn settle(
        &mut self,
        alloc: Global,
        worker: u32,
        token: u64,
        idle: Idle,
        tokens: &mut VecDeque<u64>,
    )
        requires idle { IsFoundBefore self.old worker (next.Idle idle) }
        ensures { self.new ≡ self.old }
    {
        match self.scheduler.settle(alloc, &idle) {
            Ok(Some(opened)) => {
                let taken = self
                    .tokens
                    .take_in(&self.scheduler, token, None, &[opened], tokens);
                stop_unless(&mut self.stops, taken);
            }
            Ok(None) => {
                let taken = self
                    .tokens
                    .take_in(&self.scheduler, token, None, &[], tokens);
                stop_unless(&mut self.stops, taken);
            }
            Err(SettleError::Stale { item: _, stamp: _ } | SettleError::LookInside) => {
                self.keep(token, tokens);
            }
            Err(SettleError::Memory(_)) => self.stop(),
        }
    }

    // A busy box in which no rule was found is late, and so is a call that waits for a variable.
    fn put_off(&mut self, token: u64, on: Option<Var>, tokens: &mut VecDeque<u64>)
        ensures { self.new ≡ self.old }
    {
        let postponed = self.scheduler.wait_for(token, on);
        stop_unless(&mut self.stops, postponed);
        self.keep(token, tokens);
    }

    // The token of a place whose plan is refused comes to a worker's: that of a call at once before all others.
    fn take_refused(&mut self, token: u64, is_call: bool, tokens: &mut VecDeque<u64>)
        ensures { self.new ≡ self.old }
    {
        if !is_call {
            return self.keep(token, tokens);
        }
        let taken = self
            .tokens
            .take_in(&self.scheduler, token, None, &[], tokens);
        stop_unless(&mut self.stops, taken);
    }

    // A token comes to a worker's, that of an urgent place before the others, or to those of late places.
    fn keep(&mut self, token: u64, tokens: &mut VecDeque<u64>)
        ensures { self.new ≡ self.old }
    {
        let kept = self.tokens.keep(&self.scheduler, token, tokens);
        stop_unless(&mut self.stops, kept);
    }
}

// The receipts come of the last labels of a core's journal, from this one on, which were planned together.
fn push_labels(core: &Core, first: Receipt, receipts: &mut Vec<Receipt>)
    requires number { (1 ≤ first.at) × (first.at ≤ length core.now.journal) }
    requires room { vec_len receipts.old + length (drop (first.at - 1) core.now.journal) ≤ vec_capacity receipts.old }
    ensures { receipts.new.items ≡ receipts.old.items ++ receipts_from first.at first.seen (drop (first.at - 1) core.now.journal) }
{
    let labels = &core.journal()[first.at as usize - 1..];
    push_receipts(receipts, first.at, first.seen, labels);
}

// The root box that a label split; `None` where it split none.
fn split_root(table: &Table, label: &Label) -> Option<Name> {
    let Rule::Split = label.rule else {
        return None;
    };
    let Place::Box(name) = label.place else {
        return None;
    };
    match table.outside(name) {
        Some(_) => None,
        None => Some(name),
    }
}

// Takes in the tokens of places that a label opened, and that of its own place.
fn take_opened(
    stops: &mut bool,
    tokens: &mut Tokens,
    scheduler: &Scheduler,
    token: u64,
    split: Option<Name>,
    opened: SmallVec<u64, 4>,
    line: &mut VecDeque<u64>,
)
    ensures { (before : _) → KeepsTokens before scheduler.now.openings opened.items → (stops.old ≡ false → AreHeld before tokens.old.held) → stops.new ≡ false → AreHeld scheduler.now.openings tokens.new.held }
{
    let taken = tokens.take_in(scheduler, token, split, opened.as_slice(), line);
    stop_unless(stops, taken);
}

// Where memory was wanting, for a token or for the turn of its place, all workers are to stop.
fn stop_unless(stops: &mut bool, done: Result<(), AllocError>)
    ensures { stops.new ≡ (stops.old || is_err done) }
{
    if done.is_err() {
        *stops = true;
    }
}
