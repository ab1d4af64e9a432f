//! Plans of Open.

ghost use Rattle.std.specs.Prelude.{◌≡◌, IfOk};
ghost use Rattle.akl_terms.specs.declared.name.Place.{Place};
ghost use Rattle.akl_terms.specs.declared.program.Code.{Code};
ghost use Rattle.box_tree.specs.declared.view.Sight.{Sight};
ghost use Rattle.guard_plan.specs.Planned.{IsPlannedBy};

use crate::at_goals::{add_port, told_plan};
use akl_model::Rule;
use akl_terms::{Equation, Name, Program, Term};
use box_tree::{Plan, View};
use local_store::told;
use std::alloc::{AllocError, Global};

// The plan that opens a new port, which has a node under a frame as its tail, and tells another node to be the port.
pub(crate) fn open(
    alloc: Global,
    program: &Program,
    view: &View,
    goal: Name,
    frame: Name,
    port: u32,
    stream: u32,
) -> Result<Option<Plan>, AllocError>
    requires program { program.now ≡ view.now.table.program }
    requires place { view.now.place ≡ Place.Goal goal }
    requires sight { view.now.sight ≡ Sight.Atom (record { code = Code.OpenPort port stream; frame = frame }) }
    ensures { IfOk result (IsPlannedBy view.now) }
{
    let name = Name {
        worker: view.worker(),
        number: view.next(),
    };
    let equation = Equation {
        left: Term::Mol { node: port, frame },
        right: Term::Port(name),
    };
    let tail = Term::Mol {
        node: stream,
        frame,
    };
    let chain = view.chain(&program.templates);
    let mut answer = told(alloc, &chain, &[equation])?;
    add_port(&mut answer.part, name, tail)?;
    told_plan(alloc, program, view, goal, Rule::Open, 1, answer)
}
