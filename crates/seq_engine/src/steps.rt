//! One commit of a run, or its end.

ghost use Rattle.std.specs.Prelude.{◌≡◌, IfOk};
ghost use Rattle.seq_engine.specs.Runs.{HasStepped, IsPlanNow};

use crate::attending::next_plan;
use crate::receipts::push_receipts;
use akl_model::Receipt;
use akl_terms::{Program, Steps};
use box_tree::Plan;
use scheduler::Scheduler;
use std::alloc::{AllocError, Global};
use std::sync::ledger::Ledger;
use step_commit::CommitError;

/// What a step of a run came to.
#[derive(Clone, Copy)]
pub enum Stepped {
    /// The labels of a plan were committed.
    Committed,
    /// No place is ready.
    Quiet,
    /// Some place is ready, and all labels of the budget are made.
    Spent,
}

// Commits a plan that was made in this very state, and keeps the receipts of its labels; or all labels of the budget are made.
fn commit<L: Ledger>(
    alloc: Global,
    scheduler: &mut Scheduler,
    plan: Plan,
    receipts: &mut Vec<Receipt>,
    steps: &mut Steps<L>,
) -> Result<Stepped, AllocError>
    requires { IsPlanNow scheduler.old.core plan }
    ensures { IfOk result (HasStepped scheduler.old.core receipts.old.items scheduler.new.core receipts.new.items) }
{
    match scheduler.commit(alloc, plan, steps) {
        Ok(committed) => {
            let first = committed.receipt;
            let labels = &scheduler.core().journal()[first.at as usize - 1..];
            receipts.reserve(labels.len())?;
            push_receipts(receipts, first.at, first.seen, labels);
            Ok(Stepped::Committed)
        }
        Err(CommitError::Spent { budget: _ }) => Ok(Stepped::Spent),
        Err(CommitError::Short { left: _ }) => unreachable!(),
        Err(CommitError::Stale { item: _, stamp: _ }) => unreachable!(),
        Err(CommitError::Memory(error)) => Err(error),
    }
}

/// Plans at the open places until a rule applies, and commits the plan's labels as worker 1. The commit's steps are counted.
pub(crate) fn step<L: Ledger>(
    alloc: Global,
    program: &Program,
    scheduler: &mut Scheduler,
    receipts: &mut Vec<Receipt>,
    steps: &mut Steps<L>,
) -> Result<Stepped, AllocError>
    requires { program.now ≡ scheduler.old.core.table.program }
    ensures { IfOk result (HasStepped scheduler.old.core receipts.old.items scheduler.new.core receipts.new.items) }
{
    match next_plan(alloc, program, scheduler)? {
        Some(plan) => commit(alloc, scheduler, plan, receipts, steps),
        None => Ok(Stepped::Quiet),
    }
}
