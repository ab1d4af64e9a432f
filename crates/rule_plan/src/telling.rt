//! Plans of Tell.

ghost use Rattle.std.specs.Prelude.{◌≡◌, IfOk};
ghost use Rattle.akl_terms.specs.declared.name.Place.{Place};
ghost use Rattle.akl_terms.specs.declared.program.Code.{Code};
ghost use Rattle.box_tree.specs.declared.view.Sight.{Sight};
ghost use Rattle.box_tree.specs.Views.{IsViewOf};
ghost use Rattle.guard_plan.specs.Planned.{IsPlannedBy};

use crate::at_goals::telling_plan;
use akl_model::Rule;
use akl_terms::{Equation, Name, Program, Term};
use box_tree::{Plan, View};
use std::alloc::{AllocError, Global};

// The plan that tells an equation of two nodes under a frame.
pub(crate) fn tell(
    alloc: Global,
    program: &Program,
    view: &View,
    goal: Name,
    frame: Name,
    left: u32,
    right: u32,
) -> Result<Option<Plan>, AllocError>
    requires program { program.now ≡ view.now.table.program }
    requires place { view.now.place ≡ Place.Goal goal }
    requires sight { view.now.sight ≡ Sight.Atom (record { code = Code.Equal left right; frame = frame }) }
    requires seen { IsViewOf view.now }
    ensures { IfOk result (IsPlannedBy view.now) }
{
    let equation = Equation {
        left: Term::Mol { node: left, frame },
        right: Term::Mol { node: right, frame },
    };
    telling_plan(alloc, program, view, goal, Rule::Tell, equation)
}
