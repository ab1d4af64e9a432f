//! What an idle place reads: goals, sets of goals, and bindings.

ghost use Rattle.std.specs.Prelude.{◌≡◌, ◌++◌, ◌∷◌, map, IfOk, OnOk};
ghost use Rattle.akl_model.specs.declared.item.Item.{Item};
ghost use Rattle.box_tree.specs.declared.view.Alternative.{Alternative};
ghost use Rattle.split_plan.specs.Read.{goal_items};
ghost use Rattle.box_tree.specs.Views.{IsViewOf};
ghost use Rattle.idle_plan.specs.Read.{AreGoalItems, item_of, sets_in};

use akl_model::Item;
use akl_terms::{Name, Place, Var};
use box_tree::{Alternative, InnerBox, InnerGoal, View};
use guard_plan::push_bindings;
use std::alloc::{AllocError, Global};

// What an idle goal of a view reads that waits on these variables: beside itself and the sets of goals of its alternatives and of
// the boxes down to it but the root box the bindings of the variables, where marks are kept, or else the root box's set of goals.
pub(crate) fn goal_reads(
    alloc: Global,
    view: &View,
    goal: Name,
    on: &[Var],
) -> Result<Vec<Item>, AllocError>
    ensures items { IfOk result (λ items. AreGoalItems view.now goal on.now items.items) }
    ensures seen { IsViewOf view.now }
{
    let path = view.path();
    let alternatives = view.alternatives();
    if view.keeps_marks() {
        let inner = &path[path.len().min(1)..];
        bindings_and_sets(alloc, goal, on, inner, alternatives)
    } else {
        bindings_and_sets(alloc, goal, &[], path, alternatives)
    }
}

// A goal, with the bindings of variables, and the sets of goals of boxes and of alternatives.
fn bindings_and_sets(
    alloc: Global,
    goal: Name,
    variables: &[Var],
    boxes: &[Name],
    alternatives: &[Alternative],
) -> Result<Vec<Item>, AllocError>
    ensures { IfOk result (λ items. items.items ≡ Item.Goal goal ∷ (map Item.Binding variables.now ++ (map Item.Goals boxes.now ++ map (λ (a : Alternative). Item.Goals a.name) alternatives.now))) }
{
    let mut items = Vec::new(alloc);
    items.push(Item::Goal(goal))?;
    push_bindings(variables, &mut items)?;
    push_sets(boxes, &mut items)?;
    push_alternatives(alternatives, &mut items)?;
    Ok(items)
}

// The sets of goals of the boxes around a box, and those of the box and of the boxes inside it, with their goals.
pub(crate) fn box_reads(
    alloc: Global,
    around: &[Name],
    boxes: &[InnerBox],
) -> Result<Vec<Item>, AllocError>
    ensures { IfOk result (λ items. items.items ≡ map Item.Goals around.now ++ sets_in boxes.now) }
{
    let mut items = Vec::new(alloc);
    push_sets(around, &mut items)?;
    for inner in boxes {
        items.push(Item::Goals(inner.name))?;
        push_goals(inner.goals.as_slice(), &mut items)?;
    }
    Ok(items)
}

// A goal, or the set of goals of a box.
pub(crate) fn item_of(place: Place) -> Item
    ensures { result ≡ item_of place }
{
    match place {
        Place::Goal(goal) => Item::Goal(goal),
        Place::Box(name) => Item::Goals(name),
    }
}

// The sets of goals of boxes come to the end of the items.
fn push_sets(names: &[Name], items: &mut Vec<Item>) -> Result<(), AllocError>
    ensures { OnOk result (items.new.items ≡ items.old.items ++ map Item.Goals names.now) }
{
    for name in names {
        items.push(Item::Goals(*name))?;
    }
    Ok(())
}

// The sets of goals of alternatives come to the end of the items.
fn push_alternatives(alternatives: &[Alternative], items: &mut Vec<Item>) -> Result<(), AllocError>
    ensures { OnOk result (items.new.items ≡ items.old.items ++ map (λ (a : Alternative). Item.Goals a.name) alternatives.now) }
{
    for alternative in alternatives {
        items.push(Item::Goals(alternative.name))?;
    }
    Ok(())
}

// Goals come to the end of the items.
fn push_goals(goals: &[InnerGoal], items: &mut Vec<Item>) -> Result<(), AllocError>
    ensures { OnOk result (items.new.items ≡ items.old.items ++ goal_items goals.now) }
{
    for goal in goals {
        items.push(Item::Goal(goal.name))?;
    }
    Ok(())
}
