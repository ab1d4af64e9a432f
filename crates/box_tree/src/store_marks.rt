//! The marks that a table keeps where several workers plan: of variables, and of the stores of root boxes.

ghost use Rattle.std.specs.Prelude.{◌≡◌, [], Some, None, IfSome};
ghost use Rattle.variable_marks.specs.Marks.{mark_in};
ghost use Rattle.box_tree.specs.StoreMarks.{store_mark, stores_of, PutsMark};
ghost use Rattle.box_tree.specs.Tables.{table_of, mark_after};
ghost use Rattle.box_tree.specs.Lefts.{leaves_store, IsLeftAt, HasLeft, IsToldSolved, IsMarkLeft};

use crate::step::Step;
use crate::table::Table;
use akl_terms::{Name, Place};
use name_map::NameMap;
use std::alloc::Global;
use std::marker::Model;
use variable_marks::Marks;

/// A number behind which no label changed the store of a box, where bindings are told apart: so long as the label of the
/// number `told` is the last one that told the store something.
#[derive(Clone, Copy)]
pub struct StoreMark {
    pub told: u64,
    pub number: u64,
}

/// The marks of variables, and those of stores.
#[derive(Drop)]
pub struct TableMarks {
    pub(crate) variables: Marks,
    pub(crate) stores: NameMap<StoreMark>,
}

impl Model for TableMarks {
    ghost use Rattle.box_tree.specs.StoreMarks.{TableMarksValue};

    ghost Value = { TableMarksValue };

    ghost view = { λ m. record { variables = m.variables; stores = m.stores } };
}

impl TableMarks {
    /// Each mark is 0.
    pub(crate) fn new(alloc: Global) -> TableMarks
        ensures variables { (x : _) → mark_in result.variables x ≡ 0 }
        ensures stores { result.stores ≡ [] }
    {
        TableMarks {
            variables: Marks::new(alloc),
            stores: NameMap::new(alloc),
        }
    }

    // A number behind which no label changed a store that the label of the number `told` was the last to tell something.
    fn of_store(&self, name: Name, told: u64) -> u64
        ensures { result ≡ store_mark (Some self.now) name told }
    {
        match self.stores.get(name) {
            Some(mark) if mark.told == told => mark.number,
            _ => told,
        }
    }

    // A store gets a mark, if there is memory for it.
    fn put_store(&mut self, name: Name, mark: StoreMark)
        ensures variables { self.new.variables ≡ self.old.variables }
        ensures put { PutsMark self.old self.new name (Some mark) }
    {
        let _ = self.stores.insert(name, mark);
    }

    // A store has no mark any more.
    fn remove_store(&mut self, name: Name)
        ensures variables { self.new.variables ≡ self.old.variables }
        ensures removed { PutsMark self.old self.new name None }
    {
        let _ = self.stores.remove(name);
    }
}

/// What a step does to the mark of a store.
#[derive(Clone, Copy)]
pub(crate) enum Left {
    /// Nothing.
    AsTheyAre,
    /// A box that is solved behind the step has its store as it was, where bindings are told apart; this was its mark.
    Store { home: Name, number: u64 },
    /// A box goes, and its mark with it.
    Without { home: Name },
}

impl Step {
    // Whether it tells the box of its goal something, and no ports.
    fn leaves_store(&self) -> bool
        ensures { result ≡ leaves_store self.now }
    {
        match self {
            Step::Tell { part, .. } | Step::Join { part, .. } => part.ports.is_empty(),
            Step::Fork { .. }
            | Step::Fail
            | Step::Cut
            | Step::Refute
            | Step::Confirm
            | Step::Split { .. } => false,
        }
    }
}

impl Table {
    /// A number behind which no label changed the store of a box that the label of the number `told` was the last to tell
    /// something, where bindings are told apart.
    pub(crate) fn store_mark(&self, name: Name, told: u64) -> u64
        ensures { result ≡ store_mark self.now.marks name told }
    {
        match &self.marks {
            Some(marks) => marks.of_store(name, told),
            None => told,
        }
    }

    /// What a step at a place does to the marks of stores, before it is made.
    pub(crate) fn left_by(&self, place: Place, step: &Step) -> Left
        ensures { HasLeft self.now place step.now result }
    {
        if self.marks.is_none() {
            return Left::AsTheyAre;
        }
        match (place, step) {
            (Place::Box(home), Step::Fail) => Left::Without { home },
            (Place::Goal(goal), _) if step.leaves_store() => self.left_at(goal),
            _ => Left::AsTheyAre,
        }
    }

    // The store of a goal's box may be left as it is.
    fn left_at(&self, goal: Name) -> Left
        ensures { IsLeftAt self.now goal result }
    {
        let Some(home) = self.home_of(goal) else {
            return Left::AsTheyAre;
        };
        match self.boxes.get(home) {
            Some(entry) => Left::Store {
                home,
                number: self.store_mark(home, entry.changed),
            },
            None => Left::AsTheyAre,
        }
    }

    /// The marks of stores, as a step that was made has left them.
    pub(crate) fn leave(&mut self, left: Left)
        ensures rest { self.new ≡ record self.old { marks = self.new.marks } }
        ensures variables { (x : _) → mark_after self.old.steps self.new.marks x ≡ mark_after self.old.steps self.old.marks x }
        ensures stores { (n : _) → IsMarkLeft self.old left n (stores_of self.old.marks) (stores_of self.new.marks) }
    {
        match left {
            Left::AsTheyAre => {}
            Left::Store { home, number } => {
                if let Some(told) = self.told_solved(home)
                    && let Some(marks) = &mut self.marks
                {
                    marks.put_store(home, StoreMark { told, number });
                }
            }
            Left::Without { home } => {
                if let Some(marks) = &mut self.marks {
                    marks.remove_store(home);
                }
            }
        }
    }

    // The number of the last label that told the store of a root box something, where this is solved, so that it doesn't clash.
    // Marks are kept of root boxes alone, which are few.
    fn told_solved(&self, name: Name) -> Option<u64>
        ensures { IfSome result (IsToldSolved ((table_of self.now).box_of name)) }
    {
        match self.boxes.get(name) {
            Some(entry) if entry.holder.is_none() && entry.solved_at.is_some() => {
                Some(entry.changed)
            }
            _ => None,
        }
    }
}
