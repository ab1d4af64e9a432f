//! What a worker sees of the place that it plans next.

ghost use Rattle.std.specs.Prelude.{◌≡◌, Some, false, IfOk, IfSome, IfNone, OnOk};
ghost use Rattle.wake_lists.specs.TokenSets.{is_token_in};
ghost use Rattle.scheduler.specs.Resting.{IsAtRest};
ghost use Rattle.scheduler.specs.Schedulers.{HasGone};
ghost use Rattle.par_workers.specs.Tokens.{AreHeld, IsShut, IsAtHand, StayAtHand};
ghost use Rattle.par_workers.specs.Turns.{IsSightBy, IsSightOf};
ghost use Rattle.par_workers.specs.Looks.{IsAtHandOrGone, IsNotLost};

use crate::late::comes_last;
use crate::planning::Planning;
use crate::tokens::Tokens;
use akl_terms::{Name, Place};
use box_tree::{LookError, View};
use place_steps::{Seen, see, see_still};
use scheduler::{Attention, Scheduler};
use std::alloc::{AllocError, Global};
use std::collections::VecDeque;
use step_commit::Core;

/// What a worker saw of a place.
#[derive(Drop)]
pub enum Sight {
    /// Enough to tell what comes next there.
    Whole(Seen),
    /// The same of a goal that may wait until it is known which clause is left of its call.
    Early(Seen),
    /// A place that is only tried by the rules other than Split: a box without what stands inside it.
    Tried(View),
}

impl Sight {
    /// The root box of the place.
    pub(crate) fn root(&self) -> Option<Name> {
        let view = match self {
            Sight::Whole(seen) | Sight::Early(seen) => seen.view(),
            Sight::Tried(view) => view,
        };
        view.path().first().copied()
    }
}

/// What a worker saw of a place, and the token that led it there.
#[derive(Drop)]
pub struct Look {
    pub token: u64,
    pub sight: Sight,
}

/// Looks at the place of the first of a worker's tokens whose place is there, and doesn't come last; the first is the one that
/// it has drawn. Where the worker has no token, it first takes those of the copy that was made last. Where there is no such
/// place, it looks at a late one that isn't put off, and in whose root box no other worker plans. An `Err`, for want of memory,
/// may lose a token.
pub(crate) fn find_next(
    alloc: Global,
    scheduler: &mut Scheduler,
    tokens: &mut Tokens,
    planning: &Planning,
    worker: u32,
    drawn: Option<u64>,
    line: &mut VecDeque<u64>,
) -> Result<Option<Look>, AllocError>
    ensures core { scheduler.new.core ≡ scheduler.old.core }
    ensures look { IfOk result (λ found. IfSome found (λ look. IsSightOf scheduler.old.core worker look.sight)) }
    ensures held { AreHeld scheduler.old.openings tokens.old.held → AreHeld scheduler.new.openings tokens.new.held }
    ensures stay { IfOk result (λ found. (token : _) → IsAtHand token line.old.items tokens.old.lying → IsNotLost token found line.new.items tokens.new.lying tokens.new.held) }
    ensures drawn { IfOk result (λ found. (token : _) → drawn ≡ Some token → IsNotLost token found line.new.items tokens.new.lying tokens.new.held) }
{
    if let Some(token) = drawn {
        line.push_front(token)?;
    }
    find_at_hand(alloc, scheduler, tokens, planning, worker, line)
}

// The same by the tokens at hand alone.
fn find_at_hand(
    alloc: Global,
    scheduler: &mut Scheduler,
    tokens: &mut Tokens,
    planning: &Planning,
    worker: u32,
    line: &mut VecDeque<u64>,
) -> Result<Option<Look>, AllocError>
    ensures core { scheduler.new.core ≡ scheduler.old.core }
    ensures look { IfOk result (λ found. IfSome found (λ look. IsSightOf scheduler.old.core worker look.sight)) }
    ensures held { AreHeld scheduler.old.openings tokens.old.held → AreHeld scheduler.new.openings tokens.new.held }
    ensures stay { IfOk result (λ found. (token : _) → IsAtHand token line.old.items tokens.old.lying → IsNotLost token found line.new.items tokens.new.lying tokens.new.held) }
{
    gather(scheduler, tokens, planning, worker, line)?;
    let found = look_through(alloc, scheduler, tokens, worker, line)?;
    if found.is_some() {
        return Ok(found);
    }
    look_at_late(alloc, scheduler, tokens, planning, worker)
}

// What lies with the run comes to a worker's: the token of the next place among the last in whose root boxes no other plans, if
// it is one of these no more; then the tokens of the last copy where the worker has none, and at times those of the first.
fn gather(
    scheduler: &Scheduler,
    tokens: &mut Tokens,
    planning: &Planning,
    worker: u32,
    line: &mut VecDeque<u64>,
) -> Result<(), AllocError>
    ensures held { tokens.new.held ≡ tokens.old.held }
    ensures stay { OnOk result (StayAtHand line.old.items tokens.old.lying line.new.items tokens.new.lying) }
{
    sort_late(scheduler, tokens, planning, worker, line)?;
    if line.is_empty() {
        tokens.take_last_copy(scheduler, line)
    } else if tokens.pass_copies() {
        tokens.take_first_copy(scheduler, line)
    } else {
        Ok(())
    }
}

// The token of the next place among the last in whose root boxes no other plans comes to a worker's, if it is one of these no
// more.
fn sort_late(
    scheduler: &Scheduler,
    tokens: &mut Tokens,
    planning: &Planning,
    worker: u32,
    line: &mut VecDeque<u64>,
) -> Result<(), AllocError>
    ensures held { tokens.new.held ≡ tokens.old.held }
    ensures stay { OnOk result (StayAtHand line.old.items tokens.old.lying line.new.items tokens.new.lying) }
{
    match tokens.take_next(scheduler, planning, worker) {
        Some(token) => tokens.keep(scheduler, token, line),
        None => Ok(()),
    }
}

// Looks at the place of the first of a worker's tokens whose place is there. Of those before it those go whose place
// isn't there, and those of late places or such as are put off come to the last ones.
fn look_through(
    alloc: Global,
    scheduler: &mut Scheduler,
    tokens: &mut Tokens,
    worker: u32,
    line: &mut VecDeque<u64>,
) -> Result<Option<Look>, AllocError>
    ensures core { scheduler.new.core ≡ scheduler.old.core }
    ensures look { IfOk result (λ found. IfSome found (λ look. IsSightOf scheduler.old.core worker look.sight)) }
    ensures held { AreHeld scheduler.old.openings tokens.old.held → AreHeld scheduler.new.openings tokens.new.held }
    ensures stay { IfOk result (λ found. (token : _) → IsAtHand token line.old.items tokens.old.lying → IsNotLost token found line.new.items tokens.new.lying tokens.new.held) }
{
    for _ in 0..line.len() {
        let Some(token) = line.pop_front() else {
            break;
        };
        if comes_last(scheduler, token) {
            tokens.put_last(scheduler, token)?;
            continue;
        }
        if let Some(sight) = see_open(alloc, scheduler, tokens, worker, token)? {
            return Ok(Some(Look { token, sight }));
        }
    }
    Ok(None)
}

// Looks at a late place that isn't put off, and in whose root box no other worker plans.
fn look_at_late(
    alloc: Global,
    scheduler: &mut Scheduler,
    tokens: &mut Tokens,
    planning: &Planning,
    worker: u32,
) -> Result<Option<Look>, AllocError>
    ensures core { scheduler.new.core ≡ scheduler.old.core }
    ensures look { IfOk result (λ found. IfSome found (λ look. IsSightOf scheduler.old.core worker look.sight)) }
    ensures held { AreHeld scheduler.old.openings tokens.old.held → AreHeld scheduler.new.openings tokens.new.held }
    ensures stay { IfOk result (λ found. (line : _) (token : _) → IsAtHandOrGone token line tokens.old.lying tokens.old.held → IsNotLost token found line tokens.new.lying tokens.new.held) }
{
    for _ in 0..tokens.late_count() {
        let Some(token) = tokens.take_last(scheduler, planning, worker) else {
            break;
        };
        if let Some(sight) = see_open(alloc, scheduler, tokens, worker, token)? {
            return Ok(Some(Look { token, sight }));
        }
    }
    Ok(None)
}

// What a worker sees of the open place with this token. Where it has gone, it is closed, and where none is open the token is let
// go.
fn see_open(
    alloc: Global,
    scheduler: &mut Scheduler,
    tokens: &mut Tokens,
    worker: u32,
    token: u64,
) -> Result<Option<Sight>, AllocError>
    ensures core { scheduler.new.core ≡ scheduler.old.core }
    ensures sight { IfOk result (λ found. IfSome found (IsSightOf scheduler.old.core worker)) }
    ensures held { AreHeld scheduler.old.openings tokens.old.held → AreHeld scheduler.new.openings tokens.new.held }
    ensures lying { tokens.new.lying ≡ tokens.old.lying }
    ensures gone { IfOk result (λ found. IfNone found (is_token_in token tokens.new.held ≡ false)) }
    ensures still { (other : _) → is_token_in other tokens.old.held ≡ false → is_token_in other tokens.new.held ≡ false }
{
    let Some(place) = scheduler.place_of(token) else {
        tokens.let_go(token);
        return Ok(None);
    };
    let found = match scheduler.attention_at(token, place) {
        Attention::Whole => see_whole(alloc, scheduler, place, worker)?,
        Attention::Early => see_early(alloc, scheduler, place, worker)?,
        Attention::Tried | Attention::PutOff => see_tried(alloc, scheduler.core(), place, worker)?,
    };
    if found.is_none() {
        close(scheduler, token);
        tokens.let_go(token);
    }
    Ok(found)
}

// Closes the open place with this token, which has gone.
fn close(scheduler: &mut Scheduler, token: u64)
    requires { HasGone scheduler.old token }
    ensures core { scheduler.new.core ≡ scheduler.old.core }
    ensures shut { IsShut token scheduler.old.openings scheduler.new.openings }
{
    scheduler.forget(token);
}

// What a worker sees of a place in which nothing is open; `None` exactly where the place isn't there.
fn see_whole(
    alloc: Global,
    scheduler: &Scheduler,
    place: Place,
    worker: u32,
) -> Result<Option<Sight>, AllocError>
    requires { IsAtRest scheduler.now.openings place }
    ensures { IfOk result (IsSightBy scheduler.now.core place worker) }
{
    let candidate = scheduler.candidate_at(place);
    match see_still(alloc, scheduler.core(), place, worker, candidate)? {
        Some(seen) => Ok(Some(Sight::Whole(seen))),
        None => Ok(None),
    }
}

// The same of a goal that may wait.
fn see_early(
    alloc: Global,
    scheduler: &Scheduler,
    place: Place,
    worker: u32,
) -> Result<Option<Sight>, AllocError>
    requires { IsAtRest scheduler.now.openings place }
    ensures { IfOk result (IsSightBy scheduler.now.core place worker) }
{
    let candidate = scheduler.candidate_at(place);
    match see(alloc, scheduler.core(), place, worker, candidate)? {
        Some(seen) => Ok(Some(Sight::Early(seen))),
        None => Ok(None),
    }
}

// The same without what stands inside a box.
fn see_tried(
    alloc: Global,
    core: &Core,
    place: Place,
    worker: u32,
) -> Result<Option<Sight>, AllocError>
    ensures { IfOk result (IsSightBy core.now place worker) }
{
    match core.look(alloc, place, worker) {
        Ok(view) => Ok(Some(Sight::Tried(view))),
        Err(LookError::Gone) => Ok(None),
        Err(LookError::Memory(error)) => Err(error),
    }
}
