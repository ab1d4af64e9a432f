//! Whether a box is stable.

ghost use Rattle.std.specs.Prelude.{◌≡◌, true, IfOk, IsTrue, ◌↔◌};
ghost use Rattle.std.specs.List.{AllByRecursion};
ghost use Rattle.akl_model.specs.Stable.{IsStable};
ghost use Rattle.stable_test.specs.Reaching.{IsTestable, ReachesNoneAt};
ghost use Rattle.guard_plan.specs.Planned.{HasNoRule};
ghost use Rattle.stable_test.specs.Seen.{IsSeenInside, IsOfProgram};

use crate::frames::frames_of;
use crate::reaching::reaches_none;
use akl_terms::Program;
use box_tree::{Inside, View};
use local_store::Store;
use rule_plan::plan;
use std::alloc::{AllocError, Global};

/// Whether a box with so many boxes around it is stable, by all that stands in it and inside it: no rule but Split
/// applies there, and no variable from outside is touched or waited on. Where it is `known` that no such rule applies,
/// nothing is planned; else this costs a plan for each place. But for a root box, it costs a solution of the stores down to
/// each box and to each goal that waits.
pub fn is_stable(
    alloc: Global,
    program: &Program,
    depth: usize,
    inside: &Inside,
    known: bool,
) -> Result<bool, AllocError>
    requires inside { IsSeenInside program.now depth inside.now }
    requires known { known ≡ true → AllByRecursion HasNoRule inside.now.views.items }
    ensures { IfOk result (λ stable. (s : IsSeenInside program.now depth inside.now) → IsTrue stable ↔ IsStable program.now s.site) }
{
    if !is_still(alloc, program, inside.views.as_slice(), known)? {
        return Ok(false);
    }
    // A root box has nothing outside, and to look for it would read all of its store for each place.
    if depth == 0 {
        return Ok(true);
    }
    let frames = frames_of(alloc, inside.boxes.as_slice())?;
    none_reached(alloc, program, depth, &frames, inside.views.as_slice())
}

// Whether none of the places of these views reaches a variable from outside.
fn none_reached(
    alloc: Global,
    program: &Program,
    depth: usize,
    frames: &Store,
    views: &[View],
) -> Result<bool, AllocError>
    requires { AllByRecursion (IsTestable program.now depth frames.now) views.now }
    ensures { IfOk result (λ none. IsTrue none ↔ AllByRecursion (ReachesNoneAt program.now depth frames.now) views.now) }
{
    for view in views {
        if !reaches_none(alloc, program, depth, frames, view)? {
            return Ok(false);
        }
    }
    Ok(true)
}

// Whether at no place of these views a rule other than Split applies, which may be known.
fn is_still(
    alloc: Global,
    program: &Program,
    views: &[View],
    known: bool,
) -> Result<bool, AllocError>
    requires program { AllByRecursion (IsOfProgram program.now) views.now }
    requires known { known ≡ true → AllByRecursion HasNoRule views.now }
    ensures { IfOk result (λ still. IsTrue still ↔ AllByRecursion HasNoRule views.now) }
{
    if known {
        return Ok(true);
    }
    none_applies(alloc, program, views)
}

// Whether at no place of these views a rule other than Split applies.
fn none_applies(alloc: Global, program: &Program, views: &[View]) -> Result<bool, AllocError>
    requires { AllByRecursion (IsOfProgram program.now) views.now }
    ensures { IfOk result (λ none. IsTrue none ↔ AllByRecursion HasNoRule views.now) }
{
    for view in views {
        if !none_applies_at(alloc, program, view)? {
            return Ok(false);
        }
    }
    Ok(true)
}

// Whether no rule other than Split applies at a place.
fn none_applies_at(alloc: Global, program: &Program, view: &View) -> Result<bool, AllocError>
    requires { IsOfProgram program.now view.now }
    ensures { IfOk result (λ none. IsTrue none ↔ HasNoRule view.now) }
{
    Ok(plan(alloc, program, view)?.is_none())
}
