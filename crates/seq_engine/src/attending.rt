//! Open places that one worker looks at in turn.

ghost use Rattle.std.specs.Prelude.{◌≡◌, IfOk, IfSome};
ghost use Rattle.scheduler.specs.Resting.{IsAtRest};
ghost use Rattle.seq_engine.specs.Attending.{IsOpenUnder, IsUnderAtRest, HasFirst, HasTried, HasCome, HasAttended, HasPlan, IsIdleNow, IsNextNow, HasClosed};

use akl_terms::{Place, Program};
use box_tree::{LookError, Plan};
use idle_places::Idle;
use place_steps::{Early, Next, early_next, next_of, see, see_still};
use rule_plan::plan;
use scheduler::{Attention, Scheduler, SettleError};
use std::alloc::{AllocError, Global};

/// What came of an open place that was looked at.
#[derive(Drop)]
pub enum Attended {
    /// No place is open.
    Quiet,
    /// A rule applies at the place.
    Planned(Plan),
    /// The place was closed.
    Closed,
}

// The place that comes first, with its token; `None` where no place is open.
fn first_place(scheduler: &Scheduler) -> Option<(u64, Place)>
    ensures { HasFirst scheduler.now result }
{
    let token = scheduler.first_open()?;
    let place = scheduler.place_of(token)?;
    Some((token, place))
}

// Plans a rule other than Split at a place.
fn plan_other(
    alloc: Global,
    program: &Program,
    scheduler: &Scheduler,
    place: Place,
) -> Result<Option<Plan>, AllocError>
    requires { program.now ≡ scheduler.now.core.table.program }
    ensures { IfOk result (HasTried scheduler.now scheduler.now) }
{
    match scheduler.core().look(alloc, place, 1) {
        Ok(view) => plan(alloc, program, &view),
        Err(LookError::Gone) => Ok(None),
        Err(LookError::Memory(error)) => Err(error),
    }
}

// Closes an open place that was found idle in this very state.
fn settle(alloc: Global, scheduler: &mut Scheduler, idle: &Idle) -> Result<(), AllocError>
    requires { IsIdleNow scheduler.old idle.now }
    ensures { IfOk result (λ _. HasClosed scheduler.old scheduler.new) }
{
    match scheduler.settle(alloc, idle) {
        Ok(_) => Ok(()),
        Err(SettleError::Stale { item: _, stamp: _ }) => unreachable!(),
        Err(SettleError::LookInside) => unreachable!(),
        Err(SettleError::Memory(error)) => Err(error),
    }
}

// Plans what comes next at an open place in which nothing is open, or closes the place, where this is to sleep.
fn follow(alloc: Global, scheduler: &mut Scheduler, next: Next) -> Result<Attended, AllocError>
    requires { IsNextNow scheduler.old next }
    ensures { IfOk result (HasAttended scheduler.old scheduler.new) }
{
    match next {
        Next::Plan(found) => Ok(Attended::Planned(found)),
        Next::Idle(idle) => {
            settle(alloc, scheduler, &idle)?;
            Ok(Attended::Closed)
        }
    }
}

// Plans a rule at an open place in which nothing is open. Where none applies, the place is closed.
fn attend(
    alloc: Global,
    program: &Program,
    scheduler: &mut Scheduler,
    token: u64,
    place: Place,
) -> Result<Attended, AllocError>
    requires program { program.now ≡ scheduler.old.core.table.program }
    requires open { IsOpenUnder scheduler.old token place }
    requires rest { IsAtRest scheduler.old.openings place }
    ensures { IfOk result (HasAttended scheduler.old scheduler.new) }
{
    let candidate = scheduler.candidate_at(place);
    let Some(seen) = see_still(alloc, scheduler.core(), place, 1, candidate)? else {
        scheduler.forget(token);
        return Ok(Attended::Closed);
    };
    let next = next_of(alloc, program, &seen, scheduler.core().left())?;
    follow(alloc, scheduler, next)
}

// The same, but a call of which it isn't known yet which clause is left is late from then on.
fn attend_early(
    alloc: Global,
    program: &Program,
    scheduler: &mut Scheduler,
    token: u64,
    place: Place,
) -> Result<Option<Attended>, AllocError>
    requires program { program.now ≡ scheduler.old.core.table.program }
    requires open { IsOpenUnder scheduler.old token place }
    requires rest { IsAtRest scheduler.old.openings place }
    ensures { IfOk result (HasCome scheduler.old scheduler.new) }
{
    let candidate = scheduler.candidate_at(place);
    let Some(seen) = see(alloc, scheduler.core(), place, 1, candidate)? else {
        scheduler.forget(token);
        return Ok(Some(Attended::Closed));
    };
    match early_next(alloc, program, &seen, scheduler.core().left())? {
        Early::Next(next) => {
            let attended = follow(alloc, scheduler, next)?;
            Ok(Some(attended))
        }
        Early::Waits(on) => {
            scheduler.wait_for(token, Some(on))?;
            Ok(None)
        }
    }
}

// Plans a rule other than Split at an open place. Where none applies, the place is late.
fn try_at(
    alloc: Global,
    program: &Program,
    scheduler: &mut Scheduler,
    token: u64,
    place: Place,
) -> Result<Option<Attended>, AllocError>
    requires { program.now ≡ scheduler.old.core.table.program }
    ensures { IfOk result (HasCome scheduler.old scheduler.new) }
{
    if let Some(found) = plan_other(alloc, program, scheduler, place)? {
        return Ok(Some(Attended::Planned(found)));
    }
    scheduler.postpone(token)?;
    Ok(None)
}

// What stands inside a box that is put off, and is looked at whole, with its token.
fn inner_at_rest(scheduler: &Scheduler, token: u64, place: Place) -> Option<(u64, Place)>
    ensures { IfSome result (IsUnderAtRest scheduler.now) }
{
    if matches!(place, Place::Goal(_)) {
        return None;
    }
    let (inner, found) = scheduler.at_rest_in(token)?;
    if scheduler.attention_at(inner, found) == Attention::Whole {
        Some((inner, found))
    } else {
        None
    }
}

// Puts an open place off. If it is a box, the place inside it is attended to in which nothing is open.
fn put_off(
    alloc: Global,
    program: &Program,
    scheduler: &mut Scheduler,
    token: u64,
    place: Place,
) -> Result<Option<Attended>, AllocError>
    requires { program.now ≡ scheduler.old.core.table.program }
    ensures { IfOk result (HasCome scheduler.old scheduler.new) }
{
    scheduler.postpone(token)?;
    match inner_at_rest(scheduler, token, place) {
        Some((inner, found)) => {
            let attended = attend(alloc, program, scheduler, inner, found)?;
            Ok(Some(attended))
        }
        None => Ok(None),
    }
}

// Attends to an open place as it is to be looked at, or puts it behind all others, as a late one.
fn come_to(
    alloc: Global,
    program: &Program,
    scheduler: &mut Scheduler,
    token: u64,
    place: Place,
) -> Result<Option<Attended>, AllocError>
    requires program { program.now ≡ scheduler.old.core.table.program }
    requires open { IsOpenUnder scheduler.old token place }
    ensures { IfOk result (HasCome scheduler.old scheduler.new) }
{
    match scheduler.attention_at(token, place) {
        Attention::Whole => {
            let attended = attend(alloc, program, scheduler, token, place)?;
            Ok(Some(attended))
        }
        Attention::Early => attend_early(alloc, program, scheduler, token, place),
        Attention::Tried => try_at(alloc, program, scheduler, token, place),
        Attention::PutOff => put_off(alloc, program, scheduler, token, place),
    }
}

// Attends to an open place in which nothing is open.
fn attend_at_rest(
    alloc: Global,
    program: &Program,
    scheduler: &mut Scheduler,
) -> Result<Attended, AllocError>
    requires { program.now ≡ scheduler.old.core.table.program }
    ensures { IfOk result (HasAttended scheduler.old scheduler.new) }
{
    match scheduler.first_at_rest() {
        Some((token, place)) => attend(alloc, program, scheduler, token, place),
        None => Ok(Attended::Quiet),
    }
}

/// Attends to the first open place that is looked at whole. Each one before it is tried by the rules other than Split, so
/// that a box that fails goes at once, or is a young call of which it isn't known yet which clause is left, or is put off; it
/// is late from then on. A box is put off only once all open places are late: then a place inside it is looked at in which
/// nothing is open; where that is a choice in whose alternatives something is, the next late place comes. So none comes more
/// than twice.
fn attend_next(
    alloc: Global,
    program: &Program,
    scheduler: &mut Scheduler,
) -> Result<Attended, AllocError>
    requires { program.now ≡ scheduler.old.core.table.program }
    ensures { IfOk result (HasAttended scheduler.old scheduler.new) }
{
    for _ in 0..scheduler.open_count().saturating_mul(2) {
        let Some((token, place)) = first_place(scheduler) else {
            return Ok(Attended::Quiet);
        };
        if let Some(attended) = come_to(alloc, program, scheduler, token, place)? {
            return Ok(attended);
        }
    }
    attend_at_rest(alloc, program, scheduler)
}

/// A plan of a rule that applies at an open place, where those that came before it are closed; `None` where no place is
/// open, so that none is ready.
///
/// It ends, since each place that is closed opens at most one box, which stands in fewer boxes.
pub(crate) fn next_plan(
    alloc: Global,
    program: &Program,
    scheduler: &mut Scheduler,
) -> Result<Option<Plan>, AllocError>
    requires { program.now ≡ scheduler.old.core.table.program }
    ensures { IfOk result (HasPlan scheduler.old scheduler.new) }
{
    loop {
        match attend_next(alloc, program, scheduler)? {
            Attended::Quiet => return Ok(None),
            Attended::Planned(found) => return Ok(Some(found)),
            Attended::Closed => {}
        }
    }
}
