//! What comes of a place to which worker 1 attends.

ghost use Rattle.std.specs.Prelude.{◌≡◌, ◌<◌, IfOk, false};
ghost use Rattle.box_tree.specs.Tables.{table_of};
ghost use Rattle.box_tree.specs.Views.{is_there};
ghost use Rattle.step_commit.specs.Cores.{MayCommit};
ghost use Rattle.scheduler.specs.Settled.{MaySettle};
ghost use Rattle.core_tests.specs.Waking.{GoesOnTo, IsFoundAt, IsFoundNow};

use crate::listing::{places_under, push_places, token_of};
use crate::places::place_of;
use crate::texts::{push_item, push_place, rule_name};
use akl_model::Item;
use akl_terms::{Place, Program, Steps};
use box_tree::Plan;
use idle_places::Idle;
use place_steps::{Next, first_candidate, next_of, see};
use scheduler::{Committed, Scheduler, SettleError};
use std::alloc::{AllocError, Global};
use std::fmt::Write;
use std::marker::Brand;
use std::sync::ledger::{Blank, Ledger};
use step_commit::CommitError;

// What comes next at a place; `None` where it isn't there.
fn looked(
    alloc: Global,
    program: &Program,
    scheduler: &Scheduler,
    place: Place,
) -> Result<Option<Next>, AllocError>
    requires { program.now ≡ scheduler.now.core.table.program }
    ensures { IfOk result (IsFoundAt scheduler.now.core place) }
{
    let candidate = first_candidate(alloc, scheduler.core(), place)?;
    let Some(seen) = see(alloc, scheduler.core(), place, 1, candidate)? else {
        return Ok(None);
    };
    let next = next_of(alloc, program, &seen, 1)?;
    Ok(Some(next))
}

// The rule of a label, and the places that it opened.
fn push_committed(
    alloc: Global,
    scheduler: &Scheduler,
    committed: &Committed,
    text: &mut String,
) -> Result<(), AllocError> {
    text.push_str(rule_name(committed.receipt.label.rule))?;
    let mut places = places_under(alloc, scheduler, committed.opened.as_slice())?;
    push_places(text, " ", &mut places)
}

// That a place sleeps, and the box that this opened.
fn push_settled(
    scheduler: &Scheduler,
    opened: Option<u64>,
    text: &mut String,
) -> Result<(), AllocError> {
    text.push_str("sleeps")?;
    if let Some(token) = opened {
        text.push_str(", opens ")?;
        if let Some(place) = scheduler.place_of(token) {
            push_place(text, place)?;
        }
    }
    Ok(())
}

// That an item has changed.
fn push_stale(text: &mut String, item: Item) -> Result<(), AllocError> {
    text.push_str("stale ")?;
    push_item(text, item)
}

// Why a plan wasn't committed; want of memory is answered.
fn push_refused(text: &mut String, error: CommitError) -> Result<(), AllocError> {
    match error {
        CommitError::Memory(error) => Err(error),
        CommitError::Spent { budget: _ } => text.push_str("spent"),
        CommitError::Short { left } => write!(text, "room for {left}"),
        CommitError::Stale { item, stamp: _ } => push_stale(text, item),
    }
}

// Why a place wasn't settled; want of memory is answered.
fn push_unsettled(text: &mut String, error: SettleError) -> Result<(), AllocError> {
    match error {
        SettleError::Memory(error) => Err(error),
        SettleError::LookInside => text.push_str("look inside"),
        SettleError::Stale { item, stamp: _ } => push_stale(text, item),
    }
}

// Commits a plan.
fn commit(
    alloc: Global,
    scheduler: &mut Scheduler,
    plan: Plan,
    text: &mut String,
) -> Result<(), AllocError>
    requires { MayCommit scheduler.old.core plan }
    ensures { IfOk result (λ _. GoesOnTo scheduler.old.core scheduler.new.core) }
{
    commit_by::<Brand>(alloc, scheduler, plan, text, Blank::new(1))
}

// The same by a counter of its own.
fn commit_by<L: Ledger>(
    alloc: Global,
    scheduler: &mut Scheduler,
    plan: Plan,
    text: &mut String,
    blank: Blank,
) -> Result<(), AllocError>
    requires may { MayCommit scheduler.old.core plan }
    requires name { blank.name ≡ L.name }
    requires parts { blank.parts ≡ L.parts }
    requires some { 0 < blank.parts }
    ensures { IfOk result (λ _. GoesOnTo scheduler.old.core scheduler.new.core) }
{
    let mut steps = Steps::<L>::new(blank);
    match scheduler.commit(alloc, plan, &mut steps) {
        Ok(committed) => {
            push_committed(alloc, scheduler, &committed, text)?;
            Ok(())
        }
        Err(error) => push_refused(text, error),
    }
}

// Settles a place.
fn settle(
    alloc: Global,
    scheduler: &mut Scheduler,
    idle: &Idle,
    text: &mut String,
) -> Result<(), AllocError>
    requires { MaySettle scheduler.old.core idle.now }
    ensures { IfOk result (λ _. scheduler.new.core ≡ scheduler.old.core) }
{
    match scheduler.settle(alloc, idle) {
        Ok(opened) => {
            push_settled(scheduler, opened, text)?;
            Ok(())
        }
        Err(error) => push_unsettled(text, error),
    }
}

// Commits or settles what was found now.
fn conclude(
    alloc: Global,
    scheduler: &mut Scheduler,
    next: Next,
    text: &mut String,
) -> Result<(), AllocError>
    requires { IsFoundNow scheduler.old.core next }
    ensures { IfOk result (λ _. GoesOnTo scheduler.old.core scheduler.new.core) }
{
    match next {
        Next::Plan(plan) => commit(alloc, scheduler, plan, text),
        Next::Idle(idle) => settle(alloc, scheduler, &idle, text),
    }
}

// Closes a place that has gone, where it is open.
fn forget(scheduler: &mut Scheduler, place: Place, text: &mut String) -> Result<(), AllocError>
    requires { is_there (table_of scheduler.old.core.table) place ≡ false }
    ensures { IfOk result (λ _. scheduler.new.core ≡ scheduler.old.core) }
{
    text.push_str("gone")?;
    if let Some(token) = token_of(scheduler, place) {
        scheduler.forget(token);
    }
    Ok(())
}

/// Attends to a place, and says what came of it.
pub fn attend(
    alloc: Global,
    program: &Program,
    scheduler: &mut Scheduler,
    place: Place,
    text: &mut String,
) -> Result<(), AllocError>
    requires { program.now ≡ scheduler.old.core.table.program }
    ensures { IfOk result (λ _. GoesOnTo scheduler.old.core scheduler.new.core) }
{
    match looked(alloc, program, scheduler, place)? {
        Some(next) => conclude(alloc, scheduler, next, text),
        None => {
            forget(scheduler, place, text)?;
            Ok(())
        }
    }
}

// Attends to places in turn, and says what came of each.
fn attend_each(
    alloc: Global,
    program: &Program,
    scheduler: &mut Scheduler,
    places: &str,
    text: &mut String,
) -> Result<(), AllocError>
    requires { program.now ≡ scheduler.old.core.table.program }
    ensures { IfOk result (λ _. GoesOnTo scheduler.old.core scheduler.new.core) }
{
    for place in places.split(" < ") {
        match place_of(place) {
            Some(place) => attend(alloc, program, scheduler, place, text)?,
            None => text.push_str("no place")?,
        }
        text.push_str(" / ")?;
    }
    Ok(())
}

/// Attends to other places, and only then settles a first that was found idle before. A first that was found otherwise, or
/// without a look at what stands inside it, can't be concluded so late.
pub fn attend_between(
    alloc: Global,
    program: &Program,
    scheduler: &mut Scheduler,
    first: Place,
    others: &str,
    text: &mut String,
) -> Result<(), AllocError>
    requires { program.now ≡ scheduler.old.core.table.program }
    ensures { IfOk result (λ _. GoesOnTo scheduler.old.core scheduler.new.core) }
{
    let Some(Next::Idle(idle)) = looked(alloc, program, scheduler, first)? else {
        return text.push_str("not idle");
    };
    attend_each(alloc, program, scheduler, others, text)?;
    if idle.looked_inside() {
        settle(alloc, scheduler, &idle, text)
    } else {
        text.push_str("not seen inside")
    }
}
