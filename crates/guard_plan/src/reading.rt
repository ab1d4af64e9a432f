//! What plans at goals read.

ghost use Rattle.std.specs.Prelude.{◌≡◌, [], IfOk, OnOk, MatchOption, IsTrue, ◌↔◌, ◌∷◌, ◌++◌, map, ⊤};
ghost use Rattle.akl_terms.specs.declared.name.Place.{Place};
ghost use Rattle.akl_model.specs.declared.item.Item.{Item};
ghost use Rattle.guard_plan.specs.ReadAt.{AreEndsOf, IsReadAt, IsDrawn, AddsBinding, AddsBindings};

use akl_model::Item;
use akl_terms::{Name, Templates, Var};
use box_tree::View;
use reached_ends::ends_inside;
use std::alloc::{AllocError, Global};

/// What the plan of a label at a goal of a view read that binds these variables, where marks are kept: the goal, that the boxes
/// down to its own are there and consistent, the bindings of what the stores inside the root box lead to, and the bindings of the
/// variables, but of those whose frames the plan draws itself. Where no marks are kept, or the stores lead too far: the goal, and
/// the sets of goals of all boxes down to its own, as whatever is told to a box takes a goal from it.
pub fn reads_of(
    alloc: Global,
    templates: &Templates,
    view: &View,
    goal: Name,
    binds: &[Var],
) -> Result<Vec<Item>, AllocError>
    requires place { view.now.place ≡ Place.Goal goal }
    requires nodes { templates.now.nodes ≡ view.now.table.program.templates.nodes }
    ensures { IfOk result (λ items. IsReadAt view.now goal binds.now items.items) }
{
    let boxes = view.path();
    if !view.keeps_marks() {
        return goal_and_sets(alloc, goal, boxes);
    }
    if boxes.len() == 1 {
        return goal_and_bindings(alloc, view, goal, &[], binds);
    }
    match ends_of(alloc, templates, view)? {
        Some(ends) => goal_and_bindings(alloc, view, goal, ends.as_slice(), binds),
        None => goal_and_sets(alloc, goal, boxes),
    }
}

/// The variables whose bindings a plan of an inner place of a view reads in place of sets of goals: the ends of what the stores
/// inside the root box lead to; `None` where these lead too far, or the stores aren't known to be solved together. An `Err` is want
/// of memory.
pub fn ends_of(
    alloc: Global,
    templates: &Templates,
    view: &View,
) -> Result<Option<Vec<Var>>, AllocError>
    requires { templates.now.nodes ≡ view.now.table.program.templates.nodes }
    ensures { IfOk result (λ found. MatchOption found ⊤ (λ ends. AreEndsOf view.now ends.items)) }
{
    let ends = ends_inside(alloc, &view.chain(templates))?;
    Ok(ends)
}

// A goal, the constraints of the boxes down to it, the bindings of ends, and those of variables, but of those whose frames a plan
// of the view draws.
fn goal_and_bindings(
    alloc: Global,
    view: &View,
    goal: Name,
    ends: &[Var],
    variables: &[Var],
) -> Result<Vec<Item>, AllocError>
    ensures { IfOk result (λ items. AddsBindings view.now variables.now (Item.Goal goal ∷ (map Item.Store view.now.path ++ map Item.Binding ends.now)) items.items) }
{
    let mut items = goal_and_ends(alloc, goal, view.path(), ends)?;
    for variable in variables {
        add_binding(view, &mut items, *variable)?;
    }
    Ok(items)
}

// A goal, the constraints of boxes, and the bindings of ends.
fn goal_and_ends(
    alloc: Global,
    goal: Name,
    boxes: &[Name],
    ends: &[Var],
) -> Result<Vec<Item>, AllocError>
    ensures { IfOk result (λ items. items.items ≡ Item.Goal goal ∷ (map Item.Store boxes.now ++ map Item.Binding ends.now)) }
{
    let mut items = Vec::with_capacity(alloc, boxes.len().saturating_add(ends.len()))?;
    items.push(Item::Goal(goal))?;
    for name in boxes {
        items.push(Item::Store(*name))?;
    }
    push_bindings(ends, &mut items)?;
    Ok(items)
}

/// The bindings of variables come to the end of items.
pub fn push_bindings(variables: &[Var], items: &mut Vec<Item>) -> Result<(), AllocError>
    ensures { OnOk result (items.new.items ≡ items.old.items ++ map Item.Binding variables.now) }
{
    for variable in variables {
        items.push(Item::Binding(*variable))?;
    }
    Ok(())
}

// The binding of a variable comes to the end, where no plan of the view draws its frame.
fn add_binding(view: &View, items: &mut Vec<Item>, variable: Var) -> Result<(), AllocError>
    ensures { IfOk result (λ _. AddsBinding view.now variable items.old.items items.new.items) }
{
    if is_drawn(view, variable.frame) {
        return Ok(());
    }
    items.push(Item::Binding(variable))?;
    Ok(())
}

// Whether a plan of a view may draw a name.
fn is_drawn(view: &View, name: Name) -> bool
    ensures { IsTrue result ↔ IsDrawn view.now name }
{
    name.worker == view.worker() && name.number >= view.next()
}

/// A goal, and the sets of goals of these boxes.
pub fn goal_and_sets(alloc: Global, goal: Name, boxes: &[Name]) -> Result<Vec<Item>, AllocError>
    ensures { IfOk result (λ items. items.items ≡ Item.Goal goal ∷ map Item.Goals boxes.now) }
{
    let mut items = Vec::with_capacity(alloc, boxes.len().saturating_add(1))?;
    items.push(Item::Goal(goal))?;
    for name in boxes {
        items.push(Item::Goals(*name))?;
    }
    Ok(items)
}
