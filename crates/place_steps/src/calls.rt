//! Calls at once, as far as there is room for their labels.

ghost use Rattle.std.specs.Prelude.{◌≡◌, ◌<◌, length, IfOk, IfSome};
ghost use Rattle.akl_terms.specs.declared.name.Place.{Place};
ghost use Rattle.box_tree.specs.declared.view.Sight.{Sight};
ghost use Rattle.guard_plan.specs.Planned.{IsPlanOf};
ghost use Rattle.place_steps.specs.Seen.{view_in, IsSeen};

use crate::seen::Seen;
use akl_terms::{Code, Goal, Name, Program, Var};
use box_tree::{Plan, Sight, View};
use call_plan::{Arguments, call_at_once, waits_for};
use std::alloc::{AllocError, Global};

// The plan of a call at once at a place that was seen; `None` where no call is there, where it isn't seen at once which clause
// is left of it, and where there is no room for its labels.
pub(crate) fn call_of(
    alloc: Global,
    program: &Program,
    seen: &Seen,
    room: u64,
) -> Result<Option<Plan>, AllocError>
    requires program { program.now ≡ (view_in seen.now).table.program }
    requires seen { IsSeen seen.now }
    ensures { IfOk result (λ found. IfSome found (λ p. IsPlanOf (view_in seen.now) p × (length p.more < room))) }
{
    let Seen::Goal { goal, view } = seen else {
        return Ok(None);
    };
    let Sight::Atom(atom) = view.sight() else {
        return Ok(None);
    };
    if room <= 1 {
        return Ok(None);
    }
    match atom_call(alloc, program, view, *goal, atom)? {
        Some(found) if (found.more().len() as u64) < room => Ok(Some(found)),
        _ => Ok(None),
    }
}

// The plan of a call at once at a goal that is this atom, however many labels it has.
fn atom_call(
    alloc: Global,
    program: &Program,
    view: &View,
    goal: Name,
    atom: Goal,
) -> Result<Option<Plan>, AllocError>
    requires program { program.now ≡ view.now.table.program }
    requires place { view.now.place ≡ Place.Goal goal }
    requires sight { view.now.sight ≡ Sight.Atom atom }
    ensures { IfOk result (λ found. IfSome found (IsPlanOf view.now)) }
{
    match atom.code {
        Code::Call {
            definition,
            first,
            count,
        } => {
            let arguments = Arguments {
                frame: atom.frame,
                first,
                count,
            };
            call_at_once(alloc, program, view, goal, definition, arguments)
        }
        _ => Ok(None),
    }
}

// The variable that stands in the way of a call at a place that was seen, where it isn't known yet which clause is left of it;
// `None` where none is found.
pub(crate) fn call_waits(program: &Program, seen: &Seen) -> Option<Var>
    requires { program.now ≡ (view_in seen.now).table.program }
{
    let Seen::Goal { view, .. } = seen else {
        return None;
    };
    let Sight::Atom(atom) = view.sight() else {
        return None;
    };
    let Code::Call {
        definition,
        first,
        count,
    } = atom.code
    else {
        return None;
    };
    let arguments = Arguments {
        frame: atom.frame,
        first,
        count,
    };
    waits_for(program, view, definition, arguments)
}
