//! Plans by the alternatives of a choice.

ghost use Rattle.std.specs.Prelude.{◌≡◌, [], IfOk};
ghost use Rattle.akl_terms.specs.declared.name.Place.{Place};
ghost use Rattle.box_tree.specs.declared.view.Sight.{Sight};
ghost use Rattle.guard_plan.specs.Guards.{IsGuarded};
ghost use Rattle.guard_plan.specs.Noisy.{IsTriedBy};

use crate::collecting::collect;
use crate::cutting::cut;
use crate::guards::Noise;
use crate::promoting::promote;
use akl_terms::{Name, Program};
use box_tree::{HeldOp, Plan, View};
use std::alloc::{AllocError, Global};

/// A right plan of Cut, Promote or Collect for the choice at the place of a view, by its worker; `None` exactly where none
/// of them applies. What the alternatives touch that were tested comes to the noise.
pub fn plan_guard(
    alloc: Global,
    program: &Program,
    view: &View,
    goal: Name,
    op: HeldOp,
    noise: &mut Vec<Noise>,
) -> Result<Option<Plan>, AllocError>
    requires program { program.now ≡ view.now.table.program }
    requires place { view.now.place ≡ Place.Goal goal }
    requires sight { view.now.sight ≡ Sight.Choice op }
    requires silent { noise.old.items ≡ [] }
    ensures { IfOk result (IsTriedBy view.now noise.new.items) }
{
    match op {
        HeldOp::Collect(list) => collect(alloc, program, view, goal, list, noise),
        HeldOp::Condition | HeldOp::Commit | HeldOp::Choice => {
            by_guards(alloc, program, view, goal, op, noise)
        }
    }
}

// The same where the choice goes on by the guard of one of its alternatives.
fn by_guards(
    alloc: Global,
    program: &Program,
    view: &View,
    goal: Name,
    op: HeldOp,
    noise: &mut Vec<Noise>,
) -> Result<Option<Plan>, AllocError>
    requires program { program.now ≡ view.now.table.program }
    requires place { view.now.place ≡ Place.Goal goal }
    requires sight { view.now.sight ≡ Sight.Choice op }
    requires guarded { IsGuarded op }
    requires silent { noise.old.items ≡ [] }
    ensures { IfOk result (IsTriedBy view.now noise.new.items) }
{
    match view.alternatives() {
        [only] => promote(alloc, program, view, goal, op, only, noise),
        _ => cut(alloc, program, view, goal, op, noise),
    }
}
