//! Plans of Fail.

ghost use Rattle.std.specs.Prelude.{◌≡◌, None, IfOk};
ghost use Rattle.akl_terms.specs.declared.name.Place.{Place};
ghost use Rattle.box_tree.specs.declared.view.Sight.{Sight};
ghost use Rattle.box_tree.specs.Views.{IsViewOf};
ghost use Rattle.guard_plan.specs.Planned.{IsPlannedBy};
ghost use Rattle.rule_plan.specs.Failed.{FailsFor};

use crate::clashes::has_clash;
use crate::items::one_item;
use akl_model::{Item, Rule};
use akl_terms::{Name, Program};
use box_tree::{Plan, Step, View};
use guard_plan::label_of;
use local_store::{Consistency, consistent};
use std::alloc::{AllocError, Global};

// The plan by which a box goes, where a goal fails it or what it knows is inconsistent.
pub(crate) fn fail(
    alloc: Global,
    program: &Program,
    view: &View,
    name: Name,
    failing: Option<Name>,
) -> Result<Option<Plan>, AllocError>
    requires program { program.now ≡ view.now.table.program }
    requires place { view.now.place ≡ Place.Box name }
    requires sight { view.now.sight ≡ Sight.Box failing }
    requires seen { IsViewOf view.now }
    ensures { IfOk result (IsPlannedBy view.now) }
{
    match failing {
        Some(goal) => fail_by(alloc, view, Item::Goal(goal)),
        None => fail_told(alloc, program, view, name),
    }
}

// The plan by which a box goes where what it knows is inconsistent.
fn fail_told(
    alloc: Global,
    program: &Program,
    view: &View,
    name: Name,
) -> Result<Option<Plan>, AllocError>
    requires program { program.now ≡ view.now.table.program }
    requires place { view.now.place ≡ Place.Box name }
    requires sight { view.now.sight ≡ Sight.Box None }
    requires seen { IsViewOf view.now }
    ensures { IfOk result (IsPlannedBy view.now) }
{
    let chain = view.chain(&program.templates);
    if has_clash(&chain)? {
        return fail_by(alloc, view, Item::Store(name));
    }
    match consistent(alloc, &chain)? {
        Consistency::Consistent => Ok(None),
        Consistency::Clash { .. } => fail_by(alloc, view, Item::Store(name)),
    }
}

// The plan by which the box goes that fails by an item.
fn fail_by(alloc: Global, view: &View, item: Item) -> Result<Option<Plan>, AllocError>
    requires { FailsFor view.now item }
    ensures { IfOk result (IsPlannedBy view.now) }
{
    let reads = one_item(alloc, item)?;
    let label = label_of(view, Rule::Fail);
    let plan = Plan::new(alloc, view, label, reads, 0, Step::Fail, Vec::new(alloc))?;
    Ok(Some(plan))
}
