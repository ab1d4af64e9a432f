//! Plans of Fork.

ghost use Rattle.std.specs.Prelude.{◌≡◌, List, IfOk, option_map};
ghost use Rattle.akl_terms.specs.declared.name.Place.{Place};
ghost use Rattle.akl_terms.specs.declared.term.Node.{Node};
ghost use Rattle.akl_model.specs.Instances.{term_at};
ghost use Rattle.akl_model.specs.Rules.{operator_of};
ghost use Rattle.box_tree.specs.declared.view.Sight.{Sight};
ghost use Rattle.box_tree.specs.Tables.{op_held};
ghost use Rattle.guard_plan.specs.Planned.{IsPlannedBy};
ghost use Rattle.rule_plan.specs.Made.{called};

use crate::boxes::new_boxes;
use crate::heads::Call;
use crate::items::one_item;
use crate::names::names_of;
use akl_model::{Item, Rule};
use akl_terms::{Name, Op, Program, Term};
use box_tree::{HeldOp, Plan, Step, View};
use guard_plan::label_of;
use std::alloc::{AllocError, Global};

// The plan that makes a call the choice of its definition's clauses; `None` where there is no such definition, or one
// that collects where the call doesn't or the other way round, or where too many names would be drawn.
pub(crate) fn fork(
    alloc: Global,
    program: &Program,
    view: &View,
    goal: Name,
    definition: u32,
    call: Call,
) -> Result<Option<Plan>, AllocError>
    requires program { program.now ≡ view.now.table.program }
    requires place { view.now.place ≡ Place.Goal goal }
    requires sight { view.now.sight ≡ Sight.Atom (record { code = called definition call; frame = call.frame }) }
    ensures { IfOk result (IsPlannedBy view.now) }
{
    let label = label_of(view, Rule::Fork);
    let Some(found) = program.definitions.as_slice().get(definition as usize) else {
        return Ok(None);
    };
    let Some(op) = operator_of(found.op, call) else {
        return Ok(None);
    };
    let Some(names) = names_of(found.clauses.as_slice()) else {
        return Ok(None);
    };
    let next = view.next();
    next.checked_add(names).ok_or(AllocError)?;
    let first = Name {
        worker: view.worker(),
        number: next,
    };
    let reads = one_item(alloc, Item::Goal(goal))?;
    let chain = view.chain(&program.templates);
    let alternatives = new_boxes(alloc, &chain, call, first, found.clauses.as_slice())?;
    let step = Step::Fork { op, alternatives };
    let plan = Plan::new(alloc, view, label, reads, names, step, Vec::new(alloc))?;
    Ok(Some(plan))
}

// The operator of the choice that a call of a definition with this operator becomes.
fn operator_of(op: Op, call: Call) -> Option<HeldOp>
    ensures { (nodes : List Node) → option_map (op_held nodes) result ≡ operator_of op (option_map (term_at nodes call.frame) call.collects) }
{
    match call.collects {
        None => match op {
            Op::Condition => Some(HeldOp::Condition),
            Op::Commit => Some(HeldOp::Commit),
            Op::Choice => Some(HeldOp::Choice),
            Op::Collect => None,
        },
        Some(node) => match op {
            Op::Collect => Some(HeldOp::Collect(Term::Mol {
                node,
                frame: call.frame,
            })),
            Op::Condition | Op::Commit | Op::Choice => None,
        },
    }
}
