//! A goal tells its box.

ghost use Rattle.std.specs.Prelude.{◌≡◌, ◌+◌, List, Some, None, option_map, IfErr, OnOk};
ghost use Rattle.akl_terms.specs.declared.name.Place.{Place};
ghost use Rattle.local_store.specs.Parts.{with_part};
ghost use Rattle.table_laws.specs.Writes.{set, home_in, changed_box, solved_when, after_tell};
ghost use Rattle.akl_terms.specs.declared.term.Node.{Node};
ghost use Rattle.box_tree.specs.Tables.{table_of, store_at, box_row};
ghost use Rattle.box_tree.specs.Solved.{binds_none, takes_new, solved_with};
ghost use Rattle.box_tree.specs.Edits.{SetsBoxes, SetsGoals, Becomes, part_row};

use crate::entries::BoxEntry;
use crate::table::Table;
use akl_terms::{Name, Term, Var};
use local_store::{Part, Store};
use std::alloc::{AllocError, Global};

/// When a store was solved, where it says that it is.
pub(crate) fn solved_when(at: Option<u64>, solved: bool) -> Option<u64>
    ensures { result ≡ solved_when at solved }
{
    if solved { at } else { None }
}

/// What a box is told.
#[derive(Drop)]
pub(crate) struct Told {
    /// What is added to its store.
    pub part: Part,
    /// How many labels there were when the store was solved with it over the stores around it.
    pub solved_at: Option<u64>,
    /// The number of the label by which it is told, the last one of several.
    pub number: u64,
}

// Whether a store binds none of the variables that are bound anew.
fn binds_none(store: &Store, bindings: &[(Var, Term)]) -> bool
    ensures { result ≡ binds_none store.now bindings.now }
{
    for binding in bindings {
        if store.first_binding(binding.0).is_some() {
            return false;
        }
    }
    true
}

impl BoxEntry {
    // Whether it is that of a root box that is known to be solved, and stays so with these bindings.
    fn takes_new(&self, bindings: &[(Var, Term)]) -> bool
        ensures { (nodes : List Node) → result ≡ takes_new (box_row nodes self.now) bindings.now }
    {
        self.holder.is_none() && self.solved_at.is_some() && binds_none(self.store.get(), bindings)
    }

    /// Something is added to the box's store. An `Err` leaves the entry as it was.
    pub(crate) fn tell(&mut self, told: Told) -> Result<(), AllocError>
        ensures told { OnOk result (self.new ≡ record self.old { store = with_part self.old.store told.part; changed = told.number; solved_at = told.solved_at }) }
        ensures unchanged { IfErr result (λ _. self.new ≡ self.old) }
    {
        self.store.join(told.part)?;
        self.changed = told.number;
        self.solved_at = told.solved_at;
        Ok(())
    }
}

impl Table {
    /// Something is added to the store of the goal's box, for which a worker draws so many names, and the goal goes. An `Err`
    /// leaves the table as it was.
    pub(crate) fn tell(
        &mut self,
        alloc: Global,
        goal: Name,
        told: Told,
        worker: u32,
        count: u64,
    ) -> Result<(), AllocError>
        requires { told.number ≡ self.old.steps + 1 }
        ensures made { OnOk result (Becomes self.old self.new (after_tell goal (with_part (store_at (table_of self.old) (Place.Goal goal)) told.part) told.solved_at worker count (table_of self.old))) }
        ensures unchanged { IfErr result (λ _. self.new ≡ self.old) }
    {
        let number = told.number;
        let next = self.raised(alloc, worker, count)?;
        let home = self.home_of(goal);
        self.tell_box(home, goal, told)?;
        let _ = self.drop_goal(goal);
        self.raise(worker, next);
        self.steps = number;
        Ok(())
    }

    /// The box in which a goal stands; `None` where it isn't there.
    pub fn home_of(&self, goal: Name) -> Option<Name>
        ensures { result ≡ home_in ((table_of self.now).goal_of goal) }
    {
        match self.goals.get(goal) {
            Some(entry) => Some(entry.home),
            None => None,
        }
    }

    /// The store of a box; `None` where it isn't there.
    pub fn store_of(&self, name: Name) -> Option<&Store>
        ensures { option_map (λ store. store.now) result ≡ option_map (λ row. row.store) ((table_of self.now).box_of name) }
    {
        match self.boxes.get(name) {
            Some(entry) => Some(entry.store.get()),
            None => None,
        }
    }

    /// As of how many labels the store of a goal's box, which was solved with what is added to it when there were so many as
    /// were seen, is solved with it still; `None` where it isn't known. Of a store that no later label changed this is as it
    /// was. A root box that is solved by now is solved with it where it binds none of the variables that are bound anew.
    pub fn solved_with(&self, goal: Name, part: &Part, seen: u64) -> Option<u64>
        ensures { result ≡ solved_with (table_of self.now) goal part.now.bindings.items seen }
    {
        let home = self.home_of(goal)?;
        let entry = self.boxes.get(home)?;
        if entry.changed <= seen {
            return Some(seen);
        }
        if entry.takes_new(part.bindings.as_slice()) {
            Some(self.steps)
        } else {
            None
        }
    }

    // Something is added to the store of a box, where there is one, and the box loses a goal. An `Err` leaves the table as it
    // was.
    fn tell_box(&mut self, home: Option<Name>, goal: Name, told: Told) -> Result<(), AllocError>
        ensures told { OnOk result (SetsBoxes self.old self.new (changed_box home (part_row goal told told.number) (table_of self.old).box_of)) }
        ensures unchanged { IfErr result (λ _. self.new ≡ self.old) }
    {
        let Some(name) = home else {
            return Ok(());
        };
        let Some(entry) = self.boxes.get_mut(name) else {
            return Ok(());
        };
        let number = told.number;
        let Ok(()) = entry.tell(told) else {
            return Err(AllocError);
        };
        entry.goals.remove(&goal);
        entry.goals_changed = number;
        Ok(())
    }

    /// A goal's entry goes: the box in which it stood; `None` where it wasn't there.
    pub(crate) fn drop_goal(&mut self, goal: Name) -> Option<Name>
        ensures home { result ≡ home_in ((table_of self.old).goal_of goal) }
        ensures dropped { SetsGoals self.old self.new (set goal None (table_of self.old).goal_of) }
    {
        match self.goals.remove(goal) {
            Some(entry) => Some(entry.home),
            None => None,
        }
    }
}
