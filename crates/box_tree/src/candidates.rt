//! The alternative at which a box could be split.

ghost use Rattle.std.specs.Prelude.{◌≡◌};
ghost use Rattle.box_tree.specs.Tables.{table_of};
ghost use Rattle.box_tree.specs.Insides.{first_solved_in, candidate_at, since_held, since_of, is_older};

use crate::entries::{Held, HeldOp};
use crate::table::Table;
use akl_terms::Name;

impl Held {
    // The number of the label that made a choice's goal, or the goal of which it is a copy; 0 of an atom.
    fn since(&self) -> u64
        ensures { result ≡ since_held self.now }
    {
        match self {
            Held::Atom(_) => 0,
            Held::Choice { since, .. } => *since,
        }
    }
}

impl Table {
    // The first solved one of boxes.
    fn first_solved(&self, names: &[Name]) -> Option<Name>
        ensures { result ≡ first_solved_in (table_of self.now) names.now }
    {
        for name in names {
            if self.is_solved(*name) {
                return Some(*name);
            }
        }
        None
    }

    /// The alternative at which the box of a goal could be split by it: the first solved one of a `?` choice that has
    /// others. `None` where the goal isn't such a choice, and of one that isn't there.
    pub fn candidate_at(&self, goal: Name) -> Option<Name>
        ensures { result ≡ candidate_at (table_of self.now) ((table_of self.now).goal_of goal) }
    {
        match self.goals.get(goal) {
            Some(entry) => match &entry.held {
                Held::Atom(_) => None,
                Held::Choice {
                    op,
                    alternatives,
                    ..
                } => match op {
                    HeldOp::Choice => {
                        if alternatives.len() > 1 {
                            self.first_solved(alternatives.as_slice())
                        } else {
                            None
                        }
                    }
                    HeldOp::Condition | HeldOp::Commit | HeldOp::Collect(_) => None,
                },
            },
            None => None,
        }
    }

    // The number of the label that made the goal of a choice, or the goal of which it is a copy; 0 of another goal.
    fn since(&self, goal: Name) -> u64
        ensures { result ≡ since_of self.now goal }
    {
        match self.goals.get(goal) {
            Some(entry) => entry.held.since(),
            None => 0,
        }
    }

    /// Whether a choice is older than another: its goal, or the goal of which that is a copy, was made by an earlier label,
    /// or by the same label and comes first in the order of names.
    pub fn is_older(&self, goal: Name, other: Name) -> bool
        ensures { result ≡ is_older self.now goal other }
    {
        let since = self.since(goal);
        let others = self.since(other);
        since < others || (since == others && goal < other)
    }
}
