//! The places inside a box.

ghost use Rattle.std.specs.Prelude.{◌≡◌, ◌++◌, [], true, IfOk, OnOk};
ghost use Rattle.akl_terms.specs.declared.name.Name.{Name};
ghost use Rattle.akl_terms.specs.declared.name.Place.{Place};
ghost use Rattle.akl_model.specs.Config.{IsIn};
ghost use Rattle.box_tree.specs.Tables.{table_of};
ghost use Rattle.box_tree.specs.Drops.{IsOfRun};
ghost use Rattle.box_tree.specs.Views.{is_there};
ghost use Rattle.opened_places.specs.Placed.{goals_placed};
ghost use Rattle.opened_places.specs.Inner.{box_placed, AddsInner, AddsEach, AreInside};

use crate::placed::{Placed, all_but_last, push_placed};
use akl_terms::{Name, Place};
use box_tree::Table;
use std::alloc::{AllocError, Global};

// Goals with these boxes around them come to the end of the places.
fn push_goals(
    alloc: Global,
    goals: &[Name],
    around: &[Name],
    places: &mut Vec<Placed>,
) -> Result<(), AllocError>
    ensures { OnOk result (places.new.items ≡ places.old.items ++ goals_placed around.now goals.now) }
{
    for goal in goals {
        push_placed(alloc, Place::Goal(*goal), around, places)?;
    }
    Ok(())
}

// A box comes to the end of the places, by the boxes down to it; but not the outer box.
fn push_box(
    alloc: Global,
    outer: Name,
    name: Name,
    path: &[Name],
    places: &mut Vec<Placed>,
) -> Result<(), AllocError>
    ensures { OnOk result (places.new.items ≡ places.old.items ++ box_placed outer name path.now) }
{
    if name == outer {
        Ok(())
    } else {
        push_placed(alloc, Place::Box(name), all_but_last(path), places)
    }
}

// A box inside one, or this itself, comes with the goals directly in it; but not the outer box.
fn push_inner(
    alloc: Global,
    table: &Table,
    outer: Name,
    name: Name,
    places: &mut Vec<Placed>,
) -> Result<(), AllocError>
    requires run { IsOfRun table.now }
    requires there { is_there (table_of table.now) (Place.Box name) ≡ true }
    ensures { OnOk result (AddsInner table.now outer name places.old.items places.new.items) }
{
    let path = table.path_to(alloc, name)?;
    push_box(alloc, outer, name, path.as_slice(), places)?;
    let goals = table.goals_of(alloc, name)?;
    push_goals(alloc, goals.as_slice(), path.as_slice(), places)?;
    Ok(())
}

// Boxes inside one with the goals directly in them; but not the outer box.
fn inner_places(
    alloc: Global,
    table: &Table,
    outer: Name,
    boxes: &[Name],
) -> Result<Vec<Placed>, AllocError>
    requires run { IsOfRun table.now }
    requires there { (m : Name) → IsIn m boxes.now → is_there (table_of table.now) (Place.Box m) ≡ true }
    ensures { IfOk result (λ places. AddsEach table.now outer boxes.now [] places.items) }
{
    let mut places = Vec::new(alloc);
    for name in boxes {
        push_inner(alloc, table, outer, *name, &mut places)?;
    }
    Ok(places)
}

/// All that stands in a box or inside it, each place with the boxes around it. It takes as long as the places are many,
/// times their depth. An `Err` comes for want of memory.
pub fn places_inside(alloc: Global, table: &Table, name: Name) -> Result<Vec<Placed>, AllocError>
    requires run { IsOfRun table.now }
    requires there { is_there (table_of table.now) (Place.Box name) ≡ true }
    ensures { IfOk result (λ places. AreInside table.now name places.items) }
{
    let boxes = table.inside(alloc, name)?;
    let places = inner_places(alloc, table, name, boxes.as_slice())?;
    Ok(places)
}
