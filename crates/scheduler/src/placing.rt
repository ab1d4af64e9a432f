//! Places with the boxes around them.

ghost use Rattle.std.specs.Prelude.{OnOk};
ghost use Rattle.box_tree.specs.Drops.{IsOfRun};
ghost use Rattle.scheduler.specs.Placing.{AddsPlaced, AddsThose};

use akl_terms::Place;
use box_tree::Table;
use opened_places::{Placed, placed_at};
use std::alloc::{AllocError, Global};

/// Those of these places that are there come to the end of the places, each with the boxes around it.
pub(crate) fn push_those(
    alloc: Global,
    table: &Table,
    places: &[Place],
    those: &mut Vec<Placed>,
) -> Result<(), AllocError>
    requires { IsOfRun table.now }
    ensures { OnOk result (AddsThose table.now places.now those.old.items those.new.items) }
{
    for place in places {
        push_place(alloc, table, *place, those)?;
    }
    Ok(())
}

// A place that is there comes.
fn push_place(
    alloc: Global,
    table: &Table,
    place: Place,
    those: &mut Vec<Placed>,
) -> Result<(), AllocError>
    requires { IsOfRun table.now }
    ensures { OnOk result (AddsPlaced table.now place those.old.items those.new.items) }
{
    match placed_at(alloc, table, place)? {
        Some(placed) => those.push(placed)?,
        None => {}
    }
    Ok(())
}
