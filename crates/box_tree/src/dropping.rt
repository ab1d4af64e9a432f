//! The boxes inside a box, and their rows that go.

ghost use Rattle.std.specs.Prelude.{◌≡◌, ◌++◌, [], ◌∷◌, OnOk, IfOk};
ghost use Rattle.table_laws.specs.Walks.{alternatives_of, boxes_directly_in, ListsInside, ListsEach};
ghost use Rattle.box_tree.specs.Tables.{table_of};
ghost use Rattle.box_tree.specs.Drops.{IsOfRun, DropsGoals, DropsBoxes};

use crate::short::ShortList;
use crate::table::Table;
use akl_terms::Name;
use std::alloc::{AllocError, Global};
use std::collections::BTreeSet;

impl Table {
    // The alternatives of a goal, where it is a choice, come to the end of the names.
    fn push_alternatives(
        &self,
        alloc: Global,
        goal: Name,
        names: &mut ShortList<Name>,
    ) -> Result<(), AllocError>
        ensures { OnOk result (names.new.items ≡ names.old.items ++ alternatives_of ((table_of self.now).goal_of goal)) }
    {
        names.extend(alloc, self.alternatives_of(goal))
    }

    // The alternatives of all choices directly in a box come to the end of the names.
    fn push_inside(
        &self,
        alloc: Global,
        name: Name,
        names: &mut ShortList<Name>,
    ) -> Result<(), AllocError>
        ensures { OnOk result (names.new.items ≡ names.old.items ++ boxes_directly_in (table_of self.now) name) }
    {
        let Some(entry) = self.boxes.get(name) else {
            return Ok(());
        };
        for goal in entry.goals.iter() {
            self.push_alternatives(alloc, *goal, names)?;
        }
        Ok(())
    }

    /// A box and the boxes inside it, each once. It takes as long as they and their goals are many. An `Err` comes for want
    /// of memory.
    pub fn inside(&self, alloc: Global, name: Name) -> Result<ShortList<Name>, AllocError>
        requires { IsOfRun self.now }
        ensures { IfOk result (λ v. ListsInside (table_of self.now) name v.items) }
    {
        let mut names = ShortList::of(name);
        let mut at = 0;
        while at < names.as_slice().len() {
            let here = names.as_slice()[at];
            self.push_inside(alloc, here, &mut names)?;
            at += 1;
        }
        Ok(names)
    }

    /// Boxes and the boxes inside them, those of each box after one another. An `Err` comes for want of memory.
    pub fn inside_each(&self, alloc: Global, boxes: &[Name]) -> Result<ShortList<Name>, AllocError>
        requires { IsOfRun self.now }
        ensures { IfOk result (λ v. ListsEach (table_of self.now) boxes.now v.items) }
    {
        match boxes {
            [] => Ok(ShortList::new()),
            [name] => self.inside(alloc, *name),
            _ => self.inside_all(alloc, boxes),
        }
    }

    // Boxes and the boxes inside them, those of each box after one another. An `Err` comes for want of memory.
    fn inside_all(&self, alloc: Global, boxes: &[Name]) -> Result<ShortList<Name>, AllocError>
        requires { IsOfRun self.now }
        ensures { IfOk result (λ v. ListsEach (table_of self.now) boxes.now v.items) }
    {
        let mut names = ShortList::new();
        for name in boxes {
            let inside = self.inside(alloc, *name)?;
            names.extend(alloc, inside.as_slice())?;
        }
        Ok(names)
    }

    // The entries of goals go. It takes no memory.
    fn drop_goals(&mut self, goals: &BTreeSet<Name>)
        ensures { DropsGoals self.old self.new goals.now.keys }
    {
        for goal in goals.iter() {
            let _ = self.drop_goal(*goal);
        }
    }

    // A box's entry goes, with those of the goals directly in it. It takes no memory.
    fn drop_box(&mut self, name: Name)
        ensures { DropsBoxes self.old self.new (name ∷ []) }
    {
        if let Some(entry) = self.boxes.remove(name) {
            self.drop_goals(&entry.goals);
        }
    }

    /// The entries of boxes go, with those of the goals directly in them. It takes no memory.
    pub(crate) fn drop_boxes(&mut self, names: &[Name])
        ensures { DropsBoxes self.old self.new names.now }
    {
        for name in names {
            self.drop_box(*name);
        }
    }
}
