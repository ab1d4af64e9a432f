//! The nearest box around a place that could be split, where nothing else is open that is this box or stands in it.

ghost use Rattle.std.specs.Prelude.{◌≡◌};
ghost use Rattle.box_tree.specs.Tables.{table_of};
ghost use Rattle.box_tree.specs.Drops.{IsOfRun};
ghost use Rattle.scheduler.specs.Nearest.{first_around, HasWayOut, IsQuietOutward, IsQuietCandidate};
ghost use Rattle.scheduler.specs.Splits.{AreEnough};

use crate::splits::Splits;
use akl_terms::{Name, Place};
use box_tree::Table;
use wake_lists::Open;

// The first box from one on outwards that has a candidate, if nothing but what has this token is open up to it.
fn quiet_from(
    table: &Table,
    open_places: &Open,
    splits: &Splits,
    own: u64,
    first: Option<Name>,
) -> Option<Name>
    requires way { HasWayOut table.now first }
    requires splits { AreEnough table.now open_places.now own splits.now }
    ensures { IsQuietOutward table.now open_places.now own first result }
{
    let mut at = first;
    while let Some(name) = at {
        if open_places.busy_without(name, own) {
            return None;
        }
        if splits.has_box(name) {
            return Some(name);
        }
        at = table.outside(name);
    }
    None
}

// The innermost box around a place.
fn first_around(table: &Table, place: Place) -> Option<Name>
    ensures { result ≡ first_around (table_of table.now) place }
{
    match place {
        Place::Goal(goal) => table.home_of(goal),
        Place::Box(name) => table.outside(name),
    }
}

/// The nearest box around a place in which a choice could be split once the box is stable: it has a solved alternative,
/// and another. `None` where there is no such box, where something but the place, which has this token, is open in it, and
/// where the place isn't there. It takes as long as the boxes around the place, up to the first in which something else is
/// open, are many, and reads none of their goals: the choices are kept.
pub(crate) fn quiet_candidate(
    table: &Table,
    open_places: &Open,
    splits: &Splits,
    own: u64,
    place: Place,
) -> Option<Name>
    requires run { IsOfRun table.now }
    requires splits { AreEnough table.now open_places.now own splits.now }
    ensures { IsQuietCandidate table.now open_places.now own place result }
{
    quiet_from(table, open_places, splits, own, first_around(table, place))
}
