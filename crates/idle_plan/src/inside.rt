//! What a box waits on for itself and all that stands inside it.

ghost use Rattle.std.specs.Prelude.{◌≡◌, ◌≤◌, length, IfOk};
ghost use Rattle.stable_test.specs.Seen.{IsSeenInside};
ghost use Rattle.idle_plan.specs.Waits.{AreReachedInside};

use akl_terms::{Program, Var};
use box_tree::Inside;
use class_members::members;
use local_store::Chain;
use stable_test::reached_inside;
use std::alloc::{AllocError, Global};

// Members of the classes that a box with so many boxes around it, or a box inside it, touches from outside, by the
// stores down to the box.
pub(crate) fn waits_inside(
    alloc: Global,
    program: &Program,
    chain: &Chain,
    inside: &Inside,
    depth: usize,
) -> Result<Vec<Var>, AllocError>
    requires nodes { chain.now.nodes ≡ program.now.templates.nodes }
    requires depth { depth ≤ length chain.now.stores }
    requires inside { IsSeenInside program.now depth inside.now }
    ensures { IfOk result (λ list. (s : IsSeenInside program.now depth inside.now) → AreReachedInside program.now s.site depth chain.now.stores list.items) }
{
    // A root box has nothing outside, and to look for it would read all of its store for each place.
    if depth == 0 {
        return Ok(Vec::new(alloc));
    }
    let of = reached_inside(alloc, program, depth, inside)?;
    members(alloc, &chain.outer(depth), of.as_slice())
}
