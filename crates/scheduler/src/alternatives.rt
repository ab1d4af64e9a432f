//! The alternatives at which boxes could be split.

ghost use Rattle.std.specs.Prelude.{◌≡◌, false};
ghost use Rattle.akl_terms.specs.declared.name.Place.{Place};
ghost use Rattle.box_tree.specs.Tables.{table_of};
ghost use Rattle.box_tree.specs.Insides.{IsCandidateOf};
ghost use Rattle.wake_lists.specs.Open.{is_busy};
ghost use Rattle.scheduler.specs.Resting.{IsAtRest};
ghost use Rattle.scheduler.specs.Splits.{IsOldestCandidate};

use crate::scheduler::Scheduler;
use akl_terms::{Name, Place};

impl Scheduler {
    /// The alternative at which the box at a place, in which nothing is open, could be split, were it stable, by the oldest
    /// of the box's goals that is such a choice. `None` where there is none, and of a box that isn't there; of a goal nothing
    /// is said. The choices that are kept of the box tell it. By several workers names don't tell which goal is older, and a
    /// younger choice that was split first might have no end.
    pub fn candidate_at(&self, place: Place) -> Option<Name>
        requires { IsAtRest self.now.openings place }
        ensures oldest { (name : _) → place ≡ Place.Box name → IsOldestCandidate self.now.core.table name result }
        ensures candidate { (name : _) → place ≡ Place.Box name → IsCandidateOf (table_of self.now.core.table) name result }
    {
        match place {
            Place::Goal(_) => None,
            Place::Box(name) => self.candidate_in(name),
        }
    }

    // The same for a box.
    fn candidate_in(&self, name: Name) -> Option<Name>
        requires { is_busy name self.now.openings ≡ false }
        ensures { IsOldestCandidate self.now.core.table name result }
    {
        match self.splits.oldest_in(self.core.table(), name) {
            Some(goal) => self.core.table().candidate_at(goal),
            None => None,
        }
    }
}
