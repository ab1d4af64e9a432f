//! What a box touches from outside, by all that stands in it and inside it.

ghost use Rattle.std.specs.Prelude.{◌≡◌, IfOk};
ghost use Rattle.std.specs.List.{AllByRecursion};
ghost use Rattle.stable_test.specs.Seen.{IsSeenInside};
ghost use Rattle.stable_test.specs.Inner.{IsInnerView, AreTouchedInside, ListedBy};

use crate::frames::frames_of;
use crate::reaching::reached;
use akl_terms::{Program, Var};
use box_tree::{Inside, View};
use local_store::Store;
use std::alloc::{AllocError, Global};

/// The variables from outside of a box with so many boxes around it that it, or a box inside it, touches: by the
/// equations down to a box, or by a goal that waits in one. Of each class of the environment that is touched one is
/// listed, some more than once. This costs a solution of the stores down to each place.
pub fn reached_inside(
    alloc: Global,
    program: &Program,
    depth: usize,
    inside: &Inside,
) -> Result<Vec<Var>, AllocError>
    requires { IsSeenInside program.now depth inside.now }
    ensures { IfOk result (λ list. (s : IsSeenInside program.now depth inside.now) → AreTouchedInside program.now s.site list.items) }
{
    let frames = frames_of(alloc, inside.boxes.as_slice())?;
    all_reached(alloc, program, depth, &frames, inside.views.as_slice())
}

// What is reached at the places of these views.
fn all_reached(
    alloc: Global,
    program: &Program,
    depth: usize,
    frames: &Store,
    views: &[View],
) -> Result<Vec<Var>, AllocError>
    requires { AllByRecursion (IsInnerView program.now depth frames.now) views.now }
    ensures { IfOk result (λ list. ListedBy program.now depth frames.now views.now list.items) }
{
    let mut list = Vec::new(alloc);
    for view in views {
        let more = reached(alloc, program, depth, frames, view)?;
        list.extend_from_slice(more.as_slice())?;
    }
    Ok(list)
}
