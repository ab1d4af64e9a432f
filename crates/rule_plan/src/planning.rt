//! Plans by what stands at a place.

ghost use Rattle.std.specs.Prelude.{◌≡◌, [], IfOk};
ghost use Rattle.akl_terms.specs.declared.name.Place.{Place};
ghost use Rattle.box_tree.specs.declared.view.Sight.{Sight};
ghost use Rattle.box_tree.specs.Views.{IsViewOf};
ghost use Rattle.guard_plan.specs.Planned.{IsPlannedBy};
ghost use Rattle.guard_plan.specs.Noisy.{IsTriedBy};

use crate::evaluating::{Arithmetic, eval};
use crate::failing::fail;
use crate::forking::fork;
use crate::heads::Call;
use crate::opening::open;
use crate::sending::{Message, send};
use crate::telling::tell;
use akl_terms::{Code, Goal, Name, Place, Program};
use box_tree::{Plan, Sight, View};
use guard_plan::{Noise, plan_guard};
use std::alloc::{AllocError, Global};

/// A right plan of a rule other than Split for the place of a view, by its worker; `None` exactly where no such rule
/// that is in force applies there.
pub fn plan(alloc: Global, program: &Program, view: &View) -> Result<Option<Plan>, AllocError>
    requires { program.now ≡ view.now.table.program }
    ensures { IfOk result (IsPlannedBy view.now) }
{
    let mut noise = Vec::new(alloc);
    plan_with_noise(alloc, program, view, &mut noise)
}

/// The same. Where no rule applies at a choice, what those of its alternatives touch that were tested comes to the noise,
/// and so does the variable on which an arithmetic goal waits.
pub fn plan_with_noise(
    alloc: Global,
    program: &Program,
    view: &View,
    noise: &mut Vec<Noise>,
) -> Result<Option<Plan>, AllocError>
    requires program { program.now ≡ view.now.table.program }
    requires silent { noise.old.items ≡ [] }
    ensures { IfOk result (IsTriedBy view.now noise.new.items) }
{
    match view.place() {
        Place::Goal(goal) => match view.sight() {
            Sight::Atom(atom) => plan_atom(alloc, program, view, goal, atom, noise),
            Sight::Choice { op } => plan_guard(alloc, program, view, goal, op, noise),
            Sight::Box { .. } => Ok(None),
        },
        Place::Box(name) => match view.sight() {
            Sight::Box { failing } => fail(alloc, program, view, name, failing),
            _ => Ok(None),
        },
    }
}

// The same for a goal that is an atom.
fn plan_atom(
    alloc: Global,
    program: &Program,
    view: &View,
    goal: Name,
    atom: Goal,
    noise: &mut Vec<Noise>,
) -> Result<Option<Plan>, AllocError>
    requires program { program.now ≡ view.now.table.program }
    requires place { view.now.place ≡ Place.Goal goal }
    requires sight { view.now.sight ≡ Sight.Atom atom }
    requires seen { IsViewOf view.now }
    requires silent { noise.old.items ≡ [] }
    ensures { IfOk result (IsTriedBy view.now noise.new.items) }
{
    match atom.code {
        Code::Equal { left, right } => tell(alloc, program, view, goal, atom.frame, left, right),
        Code::Arith { test, left, right } => {
            let arithmetic = Arithmetic {
                test,
                left,
                right,
                frame: atom.frame,
            };
            eval(alloc, program, view, goal, arithmetic, noise)
        }
        Code::OpenPort { port, stream } => open(
            alloc, program, view, goal, atom.frame, port, stream,
        ),
        Code::Call {
            definition,
            first,
            count,
        } => {
            let call = Call {
                frame: atom.frame,
                first,
                count,
                collects: None,
            };
            fork(alloc, program, view, goal, definition, call)
        }
        Code::Collect {
            definition,
            first,
            count,
            result: node,
        } => {
            let call = Call {
                frame: atom.frame,
                first,
                count,
                collects: Some(node),
            };
            fork(alloc, program, view, goal, definition, call)
        }
        Code::Send { message, port } => {
            let message = Message {
                message,
                port,
                frame: atom.frame,
            };
            send(alloc, program, view, goal, message)
        }
        Code::Fail => Ok(None),
    }
}
