//! What a plan of Split reads.

ghost use Rattle.std.specs.Prelude.{◌≡◌, ◌++◌, ◌∷◌, map, IfOk, OnOk};
ghost use Rattle.akl_model.specs.declared.item.Item.{Item};
ghost use Rattle.split_plan.specs.Read.{goal_items, items_in, AreItemsAround, AreSplitItems};

use akl_model::Item;
use akl_terms::{Name, Templates, Var};
use box_tree::{InnerBox, InnerGoal, View};
use guard_plan::{ends_of, push_bindings};
use std::alloc::{AllocError, Global};

// What is read of the boxes around the box of a view, and all items of the box and of the boxes inside it.
pub(crate) fn split_reads(
    alloc: Global,
    templates: &Templates,
    view: &View,
    around: &[Name],
    boxes: &[InnerBox],
) -> Result<Vec<Item>, AllocError>
    requires { templates.now.nodes ≡ view.now.table.program.templates.nodes }
    ensures { IfOk result (λ items. AreSplitItems view.now around.now boxes.now items.items) }
{
    let mut items = read_around(alloc, templates, view, around)?;
    push_boxes(boxes, &mut items)?;
    Ok(items)
}

// That the boxes around the box of a view stay consistent: a root box by its constraint; more boxes, where marks are kept, as the
// box itself does, by the constraints and the bindings of the ends of the view; else by their sets of goals, which change with each
// constraint.
fn read_around(
    alloc: Global,
    templates: &Templates,
    view: &View,
    around: &[Name],
) -> Result<Vec<Item>, AllocError>
    requires { templates.now.nodes ≡ view.now.table.program.templates.nodes }
    ensures { IfOk result (λ items. AreItemsAround view.now around.now items.items) }
{
    if around.len() < 2 {
        return stores_of(alloc, around);
    }
    if !view.keeps_marks() {
        return sets_of(alloc, around);
    }
    match ends_of(alloc, templates, view)? {
        Some(ends) => stores_and_ends(alloc, around, ends.as_slice()),
        None => sets_of(alloc, around),
    }
}

// The constraints of boxes, and the bindings of ends.
fn stores_and_ends(alloc: Global, names: &[Name], ends: &[Var]) -> Result<Vec<Item>, AllocError>
    ensures { IfOk result (λ items. items.items ≡ map Item.Store names.now ++ map Item.Binding ends.now) }
{
    let mut items = stores_of(alloc, names)?;
    push_bindings(ends, &mut items)?;
    Ok(items)
}

// The sets of goals of boxes.
fn sets_of(alloc: Global, names: &[Name]) -> Result<Vec<Item>, AllocError>
    ensures { IfOk result (λ items. items.items ≡ map Item.Goals names.now) }
{
    names.iter().map(|name| Item::Goals(*name)).collect(alloc)
}

// The constraints of boxes.
fn stores_of(alloc: Global, names: &[Name]) -> Result<Vec<Item>, AllocError>
    ensures { IfOk result (λ items. items.items ≡ map Item.Store names.now) }
{
    names.iter().map(|name| Item::Store(*name)).collect(alloc)
}

// The items of boxes come to the end of the items.
fn push_boxes(boxes: &[InnerBox], items: &mut Vec<Item>) -> Result<(), AllocError>
    ensures { OnOk result (items.new.items ≡ items.old.items ++ items_in boxes.now) }
{
    for inner in boxes {
        push_items(inner, items)?;
    }
    Ok(())
}

// The items of a box come to the end of the items.
fn push_items(inner: &InnerBox, items: &mut Vec<Item>) -> Result<(), AllocError>
    ensures { OnOk result (items.new.items ≡ items.old.items ++ Item.Store inner.now.name ∷ Item.Goals inner.now.name ∷ goal_items inner.now.goals.items) }
{
    items.push(Item::Store(inner.name))?;
    items.push(Item::Goals(inner.name))?;
    push_goals(inner.goals.as_slice(), items)
}

// Goals come to the end of the items.
fn push_goals(goals: &[InnerGoal], items: &mut Vec<Item>) -> Result<(), AllocError>
    ensures { OnOk result (items.new.items ≡ items.old.items ++ goal_items goals.now) }
{
    for goal in goals {
        items.push(Item::Goal(goal.name))?;
    }
    Ok(())
}
