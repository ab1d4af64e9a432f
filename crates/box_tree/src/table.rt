//! The table.

ghost use Rattle.std.specs.Prelude.{◌≡◌, ◌++◌, map, IfOk, IfErr, OnOk, true, false, is_some, IfSome, Some};
ghost use Rattle.akl_terms.specs.declared.name.Place.{Place};
ghost use Rattle.table_laws.specs.Writes.{IsTable};
ghost use Rattle.table_laws.specs.Laws.{started};
ghost use Rattle.table_laws.specs.Stamped.{IsTableOf};
ghost use Rattle.box_tree.specs.Tables.{all_rules, table_of, stamp_of, MayApply, Makes, HasVariables, HasShownVariables, goals_in, is_empty, shown_in, shown_trees_of};
ghost use Rattle.box_tree.specs.Applied.{Applied};
ghost use Rattle.box_tree.specs.Kinds.{IsGoal, IsBox};
ghost use Rattle.box_tree.specs.Paths.{known_in, alternatives_seen};
ghost use Rattle.box_tree.specs.Views.{run_of, is_there, IsUnseen, IsViewOf, all_places};

use crate::entries::{BoxEntry, GoalEntry};
use crate::promoting::join_numbers;
use crate::starting::after;
use crate::step::Step;
use crate::store_marks::TableMarks;
use crate::telling::{Told, solved_when};
use crate::view::{LookError, View, ViewParts};
use crate::way::Way;
use akl_model::{Item, Label};
use akl_terms::{Name, Place, Program, Query, ShownTerm, Var};
use name_map::BoxedMap;
use std::alloc::{AllocError, Global};
use std::marker::Model;
use std::snapshot::Snapshot;

// The goal of a place that has one.
fn goal_at(place: Place) -> Name
    requires { IsGoal place }
    ensures { place ≡ Place.Goal result }
{
    match place {
        Place::Goal(goal) => goal,
        Place::Box(name) => name,
    }
}

// The box of a place that is one.
fn box_at(place: Place) -> Name
    requires { IsBox place }
    ensures { place ≡ Place.Box result }
{
    match place {
        Place::Box(name) => name,
        Place::Goal(goal) => goal,
    }
}

/// Boxes and goals by name. It remembers in no bytes the program and the query with which it was started.
///
/// An entry goes when its box or its goal goes.
#[derive(Drop)]
pub struct Table {
    pub(crate) program: Snapshot<Program>,
    pub(crate) query: Snapshot<Query>,
    pub(crate) boxes: BoxedMap<BoxEntry>,
    pub(crate) goals: BoxedMap<GoalEntry>,
    pub(crate) roots: Vec<Name>,
    pub(crate) roots_changed: u64,
    // Where several workers plan.
    pub(crate) marks: Option<TableMarks>,
    // The next number of each worker, 0 for those past the end.
    pub(crate) next: Vec<u64>,
    // How many labels were made.
    pub(crate) steps: u64,
}

impl Model for Table {
    ghost use Rattle.box_tree.specs.Tables.{TableValue};

    ghost Value = { TableValue };

    ghost view = { λ t. record { program = t.program.value; query = t.query.value; boxes = t.boxes; goals = t.goals; roots = t.roots.items; roots_changed = t.roots_changed; marks = t.marks; next = t.next.items; steps = t.steps } };
}

impl Table {
    /// What a worker sees of a place. `Gone` comes exactly where the place isn't in the configuration.
    pub fn look(
        &self,
        alloc: Global,
        journal: &Vec<Label>,
        place: Place,
        worker: u32,
    ) -> Result<View, LookError>
        requires { IsTableOf all_rules (run_of self.now journal.now.items) (table_of self.now) }
        ensures table { IfOk result (λ v. v.table ≡ self.now) }
        ensures journal { IfOk result (λ v. v.journal ≡ journal.now.items) }
        ensures place { IfOk result (λ v. v.place ≡ place) }
        ensures worker { IfOk result (λ v. v.worker ≡ worker) }
        ensures seen { IfOk result IsViewOf }
        ensures known { IfOk result (λ v. v.known ≡ known_in (table_of self.now) 0 v.path) }
        ensures alternatives { IfOk result (λ v. v.alternatives ≡ alternatives_seen self.now v.path place) }
        ensures there { IfOk result (λ _. is_there (table_of self.now) place ≡ true) }
        ensures unseen { IfErr result (IsUnseen (table_of self.now) place) }
    {
        let standing = self.standing_at(place)?;
        let Way {
            path,
            stores,
            solving,
        } = self.way_to(alloc, standing.home, standing.entry)?;
        let (known, latest) = self.known_of(
            path.as_slice(),
            solving,
            standing.home,
            standing.entry,
        )?;
        let Some(whole) = path.as_slice().len().checked_add(1) else {
            return Err(LookError::Memory(AllocError));
        };
        let (alternatives, body) = self.choice_seen(
            alloc,
            standing.alternatives,
            known,
            latest,
            whole,
        )?;
        let parts = ViewParts {
            place,
            worker,
            seen: journal.len() as u64,
            next: self.next_of(worker),
            path,
            stores,
            known,
            sight: standing.sight,
            alternatives,
            body,
            marked: self.marks.is_some(),
        };
        Ok(View {
            table: Snapshot::of(self),
            journal: Snapshot::of(journal),
            parts: parts.boxed(alloc)?,
        })
    }

    /// The number of the last label that changed the item, 0 where there is none; `None` where it has gone. Of the binding of
    /// a variable it is the variable's mark, a number behind which no label bound it in a box where it was an end.
    pub fn stamp(&self, item: Item) -> Option<u64>
        ensures { result ≡ stamp_of self.now item }
    {
        match item {
            Item::Roots => Some(self.roots_changed),
            Item::Store(name) => match self.boxes.get(name) {
                Some(entry) => Some(self.store_mark(name, entry.changed)),
                None => None,
            },
            Item::Goals(name) => match self.boxes.get(name) {
                Some(entry) => Some(entry.goals_changed),
                None => None,
            },
            Item::Goal(name) => match self.goals.get(name) {
                Some(entry) => Some(entry.changed),
                None => None,
            },
            Item::Binding(variable) => Some(self.mark_of(variable)),
        }
    }

    /// All boxes and goals: boxes first, each in increasing order of names.
    pub fn places(&self, alloc: Global) -> Result<Vec<Place>, AllocError>
        ensures { IfOk result (λ places. places.items ≡ all_places self.now) }
    {
        let mut places = Vec::new(alloc);
        self.push_boxes(alloc, &mut places)?;
        self.push_goals(alloc, &mut places)?;
        Ok(places)
    }

    // The boxes come to the end of the places.
    fn push_boxes(&self, alloc: Global, places: &mut Vec<Place>) -> Result<(), AllocError>
        ensures { OnOk result (places.new.items ≡ places.old.items ++ map (λ e. Place.Box e.0) self.now.boxes) }
    {
        let mut names = Vec::new(alloc);
        self.boxes.push_names(&mut names)?;
        for name in names.as_slice() {
            places.push(Place::Box(*name))?;
        }
        Ok(())
    }

    // The goals come to the end of the places.
    fn push_goals(&self, alloc: Global, places: &mut Vec<Place>) -> Result<(), AllocError>
        ensures { OnOk result (places.new.items ≡ places.old.items ++ map (λ e. Place.Goal e.0) self.now.goals) }
    {
        let mut names = Vec::new(alloc);
        self.goals.push_names(&mut names)?;
        for name in names.as_slice() {
            places.push(Place::Goal(*name))?;
        }
        Ok(())
    }

    /// The root boxes in order.
    pub fn roots(&self) -> &[Name]
        ensures { result.now ≡ self.now.roots }
    {
        self.roots.as_slice()
    }

    /// Whether a box has no goals; so it is of one that isn't there.
    pub fn is_solved(&self, name: Name) -> bool
        ensures { result ≡ is_empty (goals_in ((table_of self.now).box_of name)) }
    {
        match self.boxes.get(name) {
            Some(entry) => entry.goals.is_empty(),
            None => true,
        }
    }

    /// What an answer shows of a root box; nothing of a box that isn't there.
    pub fn shown_of(&self, name: Name) -> &[ShownTerm]
        ensures { shown_trees_of self.now result.now ≡ shown_in ((table_of self.now).box_of name) }
    {
        match self.boxes.get(name) {
            Some(entry) => entry.shown.as_slice(),
            None => &[],
        }
    }

    /// Makes the step of a label that draws so many names, or of the labels of a call: a join may come with so many
    /// others, of which some may come behind it. They list these variables as bound: the marks of these become the number of
    /// the last label. `at` is how many labels there are, where the step was planned over this very table. An `Err` leaves
    /// the table as it was; it comes for want of memory, where a count would pass its word, from a fork, a cut or a join of a
    /// goal that isn't there, from a join behind which more labels come than there are, and from a split where no choice
    /// holds the alternative or the same one holds the box.
    pub fn apply(
        &mut self,
        alloc: Global,
        label: Label,
        others: u64,
        names: u64,
        step: Step,
        binds: &[Var],
        at: Option<u64>,
    ) -> Result<(), AllocError>
        requires { MayApply self.old label step }
        ensures applied { IfOk result (λ _. Applied self.old label others at names step binds.now self.new) }
        ensures unchanged { IfErr result (λ _. self.new ≡ self.old) }
    {
        let first = Name {
            worker: label.worker,
            number: self.next_of(label.worker),
        };
        let left = self.left_by(label.place, &step);
        self.make(alloc, label, others, names, step, at)?;
        self.mark(binds, first);
        self.leave(left);
        Ok(())
    }

    // The same, but for the marks.
    fn make(
        &mut self,
        alloc: Global,
        label: Label,
        others: u64,
        names: u64,
        step: Step,
        at: Option<u64>,
    ) -> Result<(), AllocError>
        requires { MayApply self.old label step }
        ensures made { IfOk result (λ _. Makes self.old label others at names step self.new) }
        ensures unchanged { IfErr result (λ _. self.new ≡ self.old) }
    {
        let number = after(self.steps)?;
        let worker = label.worker;
        match step {
            Step::Tell { part, solved } => {
                let goal = goal_at(label.place);
                let solved_at = solved_when(at, solved);
                let told = Told {
                    part,
                    solved_at,
                    number,
                };
                self.tell(alloc, goal, told, worker, names)
            }
            Step::Fork { op, alternatives } => {
                let goal = goal_at(label.place);
                self.fork(alloc, goal, op, alternatives, at, number, worker, names)
            }
            Step::Fail => {
                let name = box_at(label.place);
                let inside = self.inside(alloc, name)?;
                self.fail(name, inside.as_slice(), number);
                Ok(())
            }
            Step::Cut => {
                let goal = goal_at(label.place);
                let name = label.alternative.unwrap();
                self.cut(alloc, goal, name, number)
            }
            Step::Join {
                part,
                solved,
                goals,
                told,
                behind,
            } => {
                let goal = goal_at(label.place);
                let numbers = join_numbers(self.steps, others, told, behind)?;
                let told = Told {
                    part,
                    solved_at: solved_when(at, solved),
                    number: numbers.told,
                };
                self.join(alloc, goal, told, goals, numbers, worker, names)
            }
            Step::Refute => {
                self.refute(goal_at(label.place), number);
                Ok(())
            }
            Step::Confirm => {
                self.confirm(goal_at(label.place), number);
                Ok(())
            }
            Step::Split { copy, copies } => {
                let name = box_at(label.place);
                let other = label.alternative.unwrap();
                self.split(alloc, name, other, copy, copies, at, number, worker, names)
            }
        }
    }
}
