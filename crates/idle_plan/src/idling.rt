//! Places that are found idle.

ghost use Rattle.std.specs.Prelude.{◌≡◌, true, false, IfOk};
ghost use Rattle.akl_terms.specs.declared.name.Place.{Place};
ghost use Rattle.box_copies.specs.Copies.{IsInsideOfBox};
ghost use Rattle.guard_plan.specs.Noisy.{IsNoiseAt};
ghost use Rattle.idle_plan.specs.Idling.{IsAtRootBox, IsUnready, IsIdleBy};
ghost use Rattle.idle_plan.specs.Waits.{AreOwnWaits};

use crate::around::waits_of_boxes_around;
use crate::goals::{waits_of_atom, waits_of_collecting, waits_of_commit, waits_of_condition};
use crate::inside::waits_inside;
use crate::reading::{box_reads, goal_reads, item_of};
use akl_terms::{Name, Program, Var};
use box_tree::{HeldOp, Inside, Sight, View};
use guard_plan::Noise;
use idle_places::Idle;
use std::alloc::{AllocError, Global};

/// What a goal that isn't ready waits on, by a view of it, and by what the tests of guards found at a choice, or the
/// evaluation of an arithmetic goal. An `Err` is want of memory.
///
/// This costs a solution of the stores down to it, as far as they aren't known to be solved, and of a choice by `->` a test
/// of its last alternative.
pub fn idle_goal(
    alloc: Global,
    program: &Program,
    view: &View,
    goal: Name,
    noise: &[Noise],
) -> Result<Idle, AllocError>
    requires program { program.now ≡ view.now.table.program }
    requires place { view.now.place ≡ Place.Goal goal }
    requires noise { IsNoiseAt view.now view.now.sight noise.now }
    requires unready { IsUnready view.now }
    ensures idle { IfOk result (IsIdleBy view.now) }
    ensures inside { IfOk result (λ idle. idle.inside ≡ true) }
{
    let own = waits_of_goal(alloc, program, view, noise)?;
    let mut on = waits_of_boxes_around(alloc, program, view, view.stores().len())?;
    on.extend_from_slice(own.as_slice())?;
    let reads = goal_reads(alloc, view, goal, on.as_slice())?;
    Ok(Idle::new(view, reads, on, true))
}

/// What a box that isn't ready, by Split neither, waits on, by a view of it and all that stands inside it. An `Err` is
/// want of memory.
///
/// This costs a solution of the stores down to each box inside it, and to each goal there that waits, as far as they
/// aren't known to be solved.
pub fn idle_box(
    alloc: Global,
    program: &Program,
    view: &View,
    inside: &Inside,
) -> Result<Idle, AllocError>
    requires program { program.now ≡ view.now.table.program }
    requires inside { IsInsideOfBox view.now inside.now }
    requires unready { IsUnready view.now }
    ensures idle { IfOk result (IsIdleBy view.now) }
    ensures inside { IfOk result (λ idle. idle.inside ≡ true) }
{
    let path = view.path();
    let depth = path.len().saturating_sub(1);
    let chain = view.chain(&program.templates);
    let own = waits_inside(alloc, program, &chain, inside, depth)?;
    let mut on = waits_of_boxes_around(alloc, program, view, depth)?;
    on.extend_from_slice(own.as_slice())?;
    let reads = box_reads(alloc, &path[..depth], inside.boxes.as_slice())?;
    Ok(Idle::new(view, reads, on, true))
}

/// What a root box that isn't ready waits on, by a view of it: nothing, since nothing is outside of it. An `Err` is want of
/// memory.
///
/// What stands inside the box isn't read. So where the box has come to a goal by which it fails, or to a candidate of a
/// split, it has to be looked at anew.
pub fn idle_root(alloc: Global, view: &View) -> Result<Idle, AllocError>
    requires root { IsAtRootBox view.now }
    requires unready { IsUnready view.now }
    ensures idle { IfOk result (IsIdleBy view.now) }
    ensures inside { IfOk result (λ idle. idle.inside ≡ false) }
{
    let on = Vec::new(alloc);
    let mut reads = Vec::new(alloc);
    reads.push(item_of(view.place()))?;
    Ok(Idle::new(view, reads, on, false))
}

// What a goal waits on by itself.
fn waits_of_goal(
    alloc: Global,
    program: &Program,
    view: &View,
    noise: &[Noise],
) -> Result<Vec<Var>, AllocError>
    requires program { program.now ≡ view.now.table.program }
    requires noise { IsNoiseAt view.now view.now.sight noise.now }
    ensures { IfOk result (λ list. AreOwnWaits program.now view.now view.now.sight list.items) }
{
    match view.sight() {
        Sight::Atom(atom) => waits_of_atom(alloc, program, view, atom, noise),
        Sight::Choice { op } => match op {
            HeldOp::Choice => Ok(Vec::new(alloc)),
            HeldOp::Condition => waits_of_condition(alloc, program, view, noise),
            HeldOp::Commit => waits_of_commit(alloc, program, view, noise),
            HeldOp::Collect(_) => waits_of_collecting(alloc, program, view, noise),
        },
        Sight::Box { .. } => Ok(Vec::new(alloc)),
    }
}
