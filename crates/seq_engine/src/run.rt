//! A run to its end.

ghost use Rattle.std.specs.Prelude.{◌≡◌, ◌<◌, IfOk, []};
ghost use Rattle.seq_engine.specs.Runs.{HasRun, HasRunOn};

use crate::steps::{Stepped, step};
use akl_model::Receipt;
use akl_terms::{Program, Steps};
use scheduler::Scheduler;
use std::alloc::{AllocError, Global};
use std::marker::Brand;
use std::sync::ledger::{Blank, Ledger};
use step_commit::Core;

// There is room for so many receipts at once, where the budget has: so they aren't moved again and again while they are few.
const ROOM: u64 = 4096;

/// How a run ended.
#[derive(Clone, Copy, Debug, PartialEq, Eq)]
pub enum End {
    /// No rule applies anywhere.
    Quiet,
    /// The journal has as many labels as the budget, and a rule applies.
    Spent,
}

/// A run that has ended.
#[derive(Drop)]
pub struct Finished {
    pub core: Core,
    /// What worker 1 keeps of its labels.
    pub receipts: Vec<Receipt>,
    pub end: End,
}

/// Runs on as worker 1, which has these receipts so far, until no rule applies, or until all labels of the budget are made
/// and a rule still applies.
///
/// Of the open places a box that a label may have made fail comes before all others, and then the place that has been open
/// longest. Boxes that don't fail come last, and so do choices without a solved alternative; one of them in which
/// something else is open isn't looked at yet. They come among the others again once sixteen labels were made for each open
/// place; but a choice that collects is never looked at while something in it is open.
pub fn run_on(
    alloc: Global,
    program: &Program,
    scheduler: Scheduler,
    receipts: Vec<Receipt>,
) -> Result<Finished, AllocError>
    requires { program.now ≡ scheduler.core.table.program }
    ensures { IfOk result (HasRunOn scheduler.core receipts.items) }
{
    run_counted::<Brand>(alloc, program, scheduler, receipts, Blank::new(1))
}

// The same by a counter of the steps that its commits take.
fn run_counted<L: Ledger>(
    alloc: Global,
    program: &Program,
    mut scheduler: Scheduler,
    mut receipts: Vec<Receipt>,
    blank: Blank,
) -> Result<Finished, AllocError>
    requires program { program.now ≡ scheduler.core.table.program }
    requires name { blank.name ≡ L.name }
    requires parts { blank.parts ≡ L.parts }
    requires some { 0 < blank.parts }
    ensures { IfOk result (HasRunOn scheduler.core receipts.items) }
{
    let mut steps = Steps::<L>::new(blank);
    loop {
        let end = match step(alloc, program, &mut scheduler, &mut receipts, &mut steps)? {
            Stepped::Committed => continue,
            Stepped::Quiet => End::Quiet,
            Stepped::Spent => End::Spent,
        };
        return Ok(Finished {
            core: scheduler.into_core(),
            receipts,
            end,
        });
    }
}

/// Runs a core as worker 1, until no rule applies, or until all labels of the budget are made and a rule still applies.
pub fn run_one(alloc: Global, program: &Program, core: Core) -> Result<Finished, AllocError>
    requires program { program.now ≡ core.table.program }
    requires begins { core.journal ≡ [] }
    ensures { IfOk result (HasRun core) }
{
    let receipts = Vec::with_capacity(alloc, core.left().min(ROOM) as usize)?;
    let scheduler = Scheduler::new(alloc, core)?;
    run_on(alloc, program, scheduler, receipts)
}
