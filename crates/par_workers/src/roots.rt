//! The root box of a place.

ghost use Rattle.std.specs.Prelude.{◌≡◌};
ghost use Rattle.box_tree.specs.Tables.{table_of};
ghost use Rattle.box_tree.specs.Paths.{outside_of};
ghost use Rattle.scheduler.specs.Nearest.{HasWayOut};

use akl_terms::{Name, Place};
use box_tree::Table;
use scheduler::Scheduler;

/// The root box in which the open place with this token stands; `None` where none is open. It takes as long as the boxes
/// around the place are many.
pub(crate) fn root_of(scheduler: &Scheduler, token: u64) -> Option<Name> {
    let place = scheduler.place_of(token)?;
    let table = scheduler.core().table();
    match place {
        Place::Goal(goal) => {
            let home = table.home_of(goal)?;
            Some(outermost(table, home))
        }
        Place::Box(name) => Some(outermost(table, name)),
    }
}

// The outermost of the boxes from one on outwards.
fn outermost(table: &Table, name: Name) -> Name
    requires { HasWayOut table.now (outside_of (table_of table.now) name) }
{
    let mut last = name;
    while let Some(outer) = table.outside(last) {
        last = outer;
    }
    last
}
