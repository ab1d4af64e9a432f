//! Steps that are counted for calls which count none themselves.

ghost use Rattle.std.specs.Prelude.{◌≡◌, ◌+◌, length};
ghost use Rattle.scheduler.specs.Work.{contents, boxes_written, copies_written};

use akl_terms::Steps;
use box_tree::{BoxCopy, NewBox, Plan, Step};
use std::sync::ledger::Ledger;

/// Counts so many steps.
pub(crate) fn count<L: Ledger>(number: usize, steps: &mut Steps<L>)
    ensures { steps.new ≡ steps.old + number }
{
    for _i in 0..number {
        steps.tick();
    }
}

/// Counts a step for each content that a plan's step writes, and for each label behind the plan's first one.
pub(crate) fn count_written<L: Ledger>(plan: &Plan, steps: &mut Steps<L>)
    ensures { steps.new ≡ steps.old + (contents plan.now.step + length plan.now.more) }
{
    count_contents(plan.step(), steps);
    count(plan.more().len(), steps);
}

// Counts a step for each content that a step of a plan writes.
fn count_contents<L: Ledger>(step: &Step, steps: &mut Steps<L>)
    ensures { steps.new ≡ steps.old + contents step.now }
{
    match step {
        Step::Tell { .. } | Step::Refute => steps.tick(),
        Step::Join { goals, .. } => {
            steps.tick();
            count(goals.len(), steps);
        }
        Step::Fork { alternatives, .. } => {
            steps.tick();
            count_boxes(alternatives.as_slice(), steps);
        }
        Step::Split { copies, .. } => count_copies(copies.as_slice(), steps),
        Step::Fail | Step::Cut | Step::Confirm => {}
    }
}

// Counts a step for each of these boxes, and for each of their goals.
fn count_boxes<L: Ledger>(boxes: &[NewBox], steps: &mut Steps<L>)
    ensures { steps.new ≡ steps.old + boxes_written boxes.now }
{
    for made in boxes {
        steps.tick();
        count(made.goals.len(), steps);
    }
}

// The same for copies.
fn count_copies<L: Ledger>(copies: &[BoxCopy], steps: &mut Steps<L>)
    ensures { steps.new ≡ steps.old + copies_written copies.now }
{
    for copied in copies {
        steps.tick();
        count(copied.goals.len(), steps);
    }
}
