//! What stands at a place, with the entry of its box.

ghost use Rattle.std.specs.Prelude.{IfOk, IfErr};
ghost use Rattle.box_tree.specs.Tables.{table_of};
ghost use Rattle.box_tree.specs.Views.{IsUnseen};
ghost use Rattle.akl_terms.specs.declared.name.Place.{Place};
ghost use Rattle.box_tree.specs.Standings.{IsStandingAt};

use crate::entries::BoxEntry;
use crate::looking::sight_held;
use crate::table::Table;
use crate::view::{LookError, Sight};
use akl_terms::{Name, Place};
use std::alloc::AllocError;

/// What stands at a place, with the entry of its box.
#[derive(Clone, Copy)]
pub(crate) struct Standing<'a> {
    /// The place's box: the place itself, or the box in which the goal stands.
    pub home: Name,
    pub entry: &'a BoxEntry,
    pub sight: Sight,
    /// The alternatives of the choice at the place, in order; none at another place.
    pub alternatives: &'a [Name],
}

impl Table {
    // What stands at a goal.
    fn standing_at_goal(&self, name: Name) -> Result<Standing<'_>, LookError>
        ensures standing { IfOk result (IsStandingAt self.now (Place.Goal name)) }
        ensures unseen { IfErr result (IsUnseen (table_of self.now) (Place.Goal name)) }
    {
        let Some(goal) = self.goals.get(name) else {
            return Err(LookError::Gone);
        };
        let Some(entry) = self.boxes.get(goal.home) else {
            return Err(LookError::Memory(AllocError));
        };
        Ok(Standing {
            home: goal.home,
            entry,
            sight: sight_held(&goal.held),
            alternatives: goal.held.alternatives(),
        })
    }

    // What stands at a box.
    fn standing_at_box(&self, name: Name) -> Result<Standing<'_>, LookError>
        ensures standing { IfOk result (IsStandingAt self.now (Place.Box name)) }
        ensures unseen { IfErr result (IsUnseen (table_of self.now) (Place.Box name)) }
    {
        let Some(entry) = self.boxes.get(name) else {
            return Err(LookError::Gone);
        };
        Ok(Standing {
            home: name,
            entry,
            sight: Sight::Box {
                failing: entry.failing,
            },
            alternatives: &[],
        })
    }

    /// What stands at a place. `Gone` comes exactly where the place isn't there.
    pub(crate) fn standing_at(&self, place: Place) -> Result<Standing<'_>, LookError>
        ensures standing { IfOk result (IsStandingAt self.now place) }
        ensures unseen { IfErr result (IsUnseen (table_of self.now) place) }
    {
        match place {
            Place::Goal(name) => self.standing_at_goal(name),
            Place::Box(name) => self.standing_at_box(name),
        }
    }
}
