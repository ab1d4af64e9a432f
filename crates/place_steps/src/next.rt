//! What comes next at a place.

ghost use Rattle.std.specs.Prelude.{◌≡◌, true, IfOk};
ghost use Rattle.akl_terms.specs.declared.name.Place.{Place};
ghost use Rattle.guard_plan.specs.Planned.{HasNoRule};
ghost use Rattle.guard_plan.specs.Noisy.{IsNoiseAt};
ghost use Rattle.split_plan.specs.Split.{IsStill, IsSplitBy};
ghost use Rattle.place_steps.specs.Seen.{view_in, IsSeen, IsBareRoot, IsStillRoot, IsSeenInside, IsStillAt};
ghost use Rattle.place_steps.specs.Next.{IsNext, IsAlone, HasRoom, IsEarly, HasEarlyRoom};

use crate::calls::{call_of, call_waits};
use crate::seen::Seen;
use akl_terms::{Name, Program, Var};
use box_tree::{InnerBox, Inside, Plan, View};
use guard_plan::Noise;
use idle_places::Idle;
use idle_plan::{idle_box, idle_goal, idle_root};
use rule_plan::plan_with_noise;
use split_plan::{plan_root_split, plan_split};
use std::alloc::{AllocError, Global};

/// What comes next at a place.
#[derive(Drop)]
pub enum Next {
    /// A rule applies there.
    Plan(Plan),
    /// No rule applies there, and none will while what it waits on stays as it is.
    Idle(Idle),
}

/// What comes next at a place that was seen: a right plan of a rule that applies there, or what the place waits on, as none
/// applies. At a call of which it is seen which clause is left, the plan has all labels up to the goals of this clause, if
/// there is room for so many; at all others it has one label. An `Err` is want of memory, or of names for a split.
pub fn next_of(alloc: Global, program: &Program, seen: &Seen, room: u64) -> Result<Next, AllocError>
    requires program { program.now ≡ (view_in seen.now).table.program }
    requires seen { IsSeen seen.now }
    ensures next { IfOk result (IsNext (view_in seen.now)) }
    ensures room { IfOk result (HasRoom room) }
{
    match call_of(alloc, program, seen, room)? {
        Some(found) => Ok(Next::Plan(found)),
        None => single_next(alloc, program, seen),
    }
}

/// What comes next at a place, or why nothing does yet.
#[derive(Drop)]
pub enum Early {
    /// It comes next.
    Next(Next),
    /// The place is a call of which it isn't known yet which clause is left; it may be once this variable is bound.
    Waits(Var),
}

/// What comes next at a place that was seen, but for a call of which it isn't known yet which clause is left, so that it may
/// wait for this. An `Err` is want of memory, or of names for a split.
pub fn early_next(
    alloc: Global,
    program: &Program,
    seen: &Seen,
    room: u64,
) -> Result<Early, AllocError>
    requires program { program.now ≡ (view_in seen.now).table.program }
    requires seen { IsSeen seen.now }
    ensures next { IfOk result (IsEarly (view_in seen.now)) }
    ensures room { IfOk result (HasEarlyRoom room) }
{
    if let Some(found) = call_of(alloc, program, seen, room)? {
        return Ok(Early::Next(Next::Plan(found)));
    }
    match call_waits(program, seen) {
        Some(variable) => Ok(Early::Waits(variable)),
        None => {
            let next = single_next(alloc, program, seen)?;
            Ok(Early::Next(next))
        }
    }
}

// The same where a plan has one label.
fn single_next(alloc: Global, program: &Program, seen: &Seen) -> Result<Next, AllocError>
    requires program { program.now ≡ (view_in seen.now).table.program }
    requires seen { IsSeen seen.now }
    ensures next { IfOk result (IsNext (view_in seen.now)) }
    ensures alone { IfOk result IsAlone }
{
    let mut noise = Vec::new(alloc);
    if let Some(found) = plan_with_noise(alloc, program, seen.view(), &mut noise)? {
        return Ok(Next::Plan(found));
    }
    match seen {
        Seen::Goal { goal, view } => goal_next(alloc, program, view, *goal, noise.as_slice()),
        Seen::Root { view } => root_next(alloc, view),
        Seen::Still {
            view,
            boxes,
            alternative,
        } => still_next(alloc, program, view, boxes.as_slice(), *alternative),
        Seen::Box {
            view,
            inside,
            alternative,
            still,
        } => box_next(alloc, program, view, inside, *alternative, *still),
    }
}

// What a goal at which no rule applies waits on.
fn goal_next(
    alloc: Global,
    program: &Program,
    view: &View,
    goal: Name,
    noise: &[Noise],
) -> Result<Next, AllocError>
    requires program { program.now ≡ view.now.table.program }
    requires place { view.now.place ≡ Place.Goal goal }
    requires noise { IsNoiseAt view.now view.now.sight noise.now }
    requires none { HasNoRule view.now }
    ensures next { IfOk result (IsNext view.now) }
    ensures alone { IfOk result IsAlone }
{
    let idle = idle_goal(alloc, program, view, goal, noise)?;
    Ok(Next::Idle(idle))
}

// What a root box waits on at which no rule applies, and no choice could be split.
fn root_next(alloc: Global, view: &View) -> Result<Next, AllocError>
    requires root { IsBareRoot view.now }
    requires none { HasNoRule view.now }
    ensures next { IfOk result (IsNext view.now) }
    ensures alone { IfOk result IsAlone }
{
    let idle = idle_root(alloc, view)?;
    Ok(Next::Idle(idle))
}

// What comes next at a root box of which it is known that no place inside it is ready: it is split.
fn still_next(
    alloc: Global,
    program: &Program,
    view: &View,
    boxes: &[InnerBox],
    alternative: Name,
) -> Result<Next, AllocError>
    requires program { program.now ≡ view.now.table.program }
    requires still { IsStillRoot view.now boxes.now alternative }
    requires none { HasNoRule view.now }
    ensures next { IfOk result (IsNext view.now) }
    ensures alone { IfOk result IsAlone }
{
    let found = plan_root_split(alloc, program, view, boxes, alternative)?;
    Ok(Next::Plan(found))
}

// What comes next at a box at which no rule but Split applies.
fn box_next(
    alloc: Global,
    program: &Program,
    view: &View,
    inside: &Inside,
    alternative: Option<Name>,
    still: bool,
) -> Result<Next, AllocError>
    requires program { program.now ≡ view.now.table.program }
    requires inside { IsSeenInside view.now inside.now alternative }
    requires still { still ≡ true → IsStillAt view.now.table view.now.journal view.now.place }
    requires none { HasNoRule view.now }
    ensures next { IfOk result (IsNext view.now) }
    ensures alone { IfOk result IsAlone }
{
    match split_of(alloc, program, view, inside, alternative, still)? {
        Some(found) => Ok(Next::Plan(found)),
        None => {
            let idle = idle_box(alloc, program, view, inside)?;
            Ok(Next::Idle(idle))
        }
    }
}

// Plans a split of a box that could be split at this alternative, if at any.
fn split_of(
    alloc: Global,
    program: &Program,
    view: &View,
    inside: &Inside,
    alternative: Option<Name>,
    still: bool,
) -> Result<Option<Plan>, AllocError>
    requires program { program.now ≡ view.now.table.program }
    requires inside { IsSeenInside view.now inside.now alternative }
    requires still { still ≡ true → IsStill view.now }
    ensures { IfOk result (IsSplitBy view.now) }
{
    match alternative {
        Some(name) => plan_split(alloc, program, view, inside, name, still),
        None => Ok(None),
    }
}
