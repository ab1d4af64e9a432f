//! All that stands in a box and inside it.

ghost use Rattle.std.specs.Prelude.{◌≡◌, ◌++◌, List, Some, map, IfOk, OnOk, true};
ghost use Rattle.std.specs.Map.{lookup};
ghost use Rattle.std.specs.List.{AllByRecursion};
ghost use Rattle.akl_terms.specs.declared.name.Place.{Place};
ghost use Rattle.akl_terms.specs.declared.term.Node.{Node};
ghost use Rattle.akl_terms.specs.Names.{same_name};
ghost use Rattle.table_laws.specs.Stamped.{IsTableOf};
ghost use Rattle.box_tree.specs.Tables.{all_rules, table_of, shape_held};
ghost use Rattle.box_tree.specs.Drops.{IsOfRun};
ghost use Rattle.box_tree.specs.Views.{run_of, is_there};
ghost use Rattle.box_tree.specs.Insides.{IsInnerGoal, IsSolvedDownTo, IsInnerBox, AreBoxesInside, IsInsideOf, since_held, since_of};
ghost use Rattle.box_tree.specs.Places.{goal_places, places_in, IsSeenBy};

use crate::entries::{BoxEntry, Held};
use crate::table::Table;
use crate::view::View;
use akl_model::Label;
use akl_terms::{Goal, Name, Place, ShownTerm, Term};
use local_store::{Shared, Store};
use std::alloc::{AllocError, Global};
use std::collections::BTreeSet;

/// A goal directly in a box.
#[derive(Drop)]
pub struct InnerGoal {
    pub name: Name,
    pub held: Held,
}

/// A box that stands in a box or inside it, or the box itself, with all that a copy of it needs.
#[derive(Drop)]
pub struct InnerBox {
    pub name: Name,
    /// The choice that holds it; `None` for a root box.
    pub holder: Option<Name>,
    pub store: Shared<Store>,
    /// Whether its store and those around it are known to be solved together.
    pub solved: bool,
    /// Its goals, in increasing order of names.
    pub goals: Vec<InnerGoal>,
    pub body: Vec<Goal>,
    /// What an answer shows of a root box.
    pub shown: Vec<ShownTerm>,
    pub collected: Option<Term>,
}

/// All that stands in a box and inside it.
#[derive(Drop)]
pub struct Inside {
    /// The box and the boxes inside it, each once.
    pub boxes: Vec<InnerBox>,
    /// A view of each of these boxes, and of each goal in them.
    pub views: Vec<View>,
}

impl Held {
    // The same content.
    fn duplicate(&self, alloc: Global) -> Result<Held, AllocError>
        ensures shape { IfOk result (λ h. (nodes : List Node) → shape_held nodes h ≡ shape_held nodes self.now) }
        ensures since { IfOk result (λ h. since_held h ≡ since_held self.now) }
    {
        match self {
            Held::Atom(goal) => Ok(Held::Atom(*goal)),
            Held::Choice {
                op,
                alternatives,
                since,
            } => {
                let names = Vec::from_slice(alloc, alternatives.as_slice())?;
                Ok(Held::Choice {
                    op: *op,
                    alternatives: names,
                    since: *since,
                })
            }
        }
    }
}

// The same shown terms.
fn same_shown(alloc: Global, shown: &[ShownTerm]) -> Result<Vec<ShownTerm>, AllocError>
    ensures { IfOk result (λ v. v.items ≡ shown.now) }
{
    let mut terms = Vec::new(alloc);
    for term in shown {
        let name = term.name.duplicate()?;
        terms.push(ShownTerm {
            name,
            term: term.term,
        })?;
    }
    Ok(terms)
}

// The places of goals come to the end of the places.
fn push_goal_places(goals: &[InnerGoal], places: &mut Vec<Place>) -> Result<(), AllocError>
    ensures { OnOk result (places.new.items ≡ places.old.items ++ goal_places goals.now) }
{
    for goal in goals {
        places.push(Place::Goal(goal.name))?;
    }
    Ok(())
}

// The places of boxes and of the goals directly in them.
fn places_in(alloc: Global, boxes: &[InnerBox]) -> Result<Vec<Place>, AllocError>
    ensures { IfOk result (λ places. places.items ≡ places_in boxes.now) }
{
    let mut places = Vec::new(alloc);
    for inner in boxes {
        places.push(Place::Box(inner.name))?;
        push_goal_places(inner.goals.as_slice(), &mut places)?;
    }
    Ok(places)
}

impl Table {
    // A goal with its content.
    fn inner_goal(&self, alloc: Global, name: Name) -> Result<InnerGoal, AllocError>
        ensures name { IfOk result (λ g. g.name ≡ name) }
        ensures held { IfOk result (IsInnerGoal self.now) }
        ensures since { IfOk result (λ g. since_held g.held ≡ since_of self.now name) }
    {
        let Some(entry) = self.goals.get(name) else {
            return Err(AllocError);
        };
        let held = entry.held.duplicate(alloc)?;
        Ok(InnerGoal { name, held })
    }

    // The goals of a box with their contents.
    fn inner_goals(
        &self,
        alloc: Global,
        goals: &BTreeSet<Name>,
    ) -> Result<Vec<InnerGoal>, AllocError>
        ensures names { IfOk result (λ v. map (λ g. g.name) v.items ≡ goals.now.keys) }
        ensures held { IfOk result (λ v. AllByRecursion (IsInnerGoal self.now) v.items) }
    {
        let mut inner = Vec::new(alloc);
        for goal in goals.iter() {
            let found = self.inner_goal(alloc, *goal)?;
            inner.push(found)?;
        }
        Ok(inner)
    }

    // Whether the stores down to a box, of which this is the entry, are known to be solved together.
    fn is_solved_down_to(
        &self,
        alloc: Global,
        name: Name,
        entry: &BoxEntry,
    ) -> Result<bool, AllocError>
        requires table { IsOfRun self.now }
        requires entry { lookup (same_name name) self.now.boxes ≡ Some entry.now }
        ensures { IfOk result (λ solved. solved ≡ true → IsSolvedDownTo self.now name) }
    {
        let way = self.way_to(alloc, name, entry)?;
        let path = way.path.as_slice();
        let (known, _) = self.known_of(path, way.solving, name, entry)?;
        Ok(known == path.len())
    }

    // A box with all that a copy of it needs.
    fn inner_box(&self, alloc: Global, name: Name) -> Result<InnerBox, AllocError>
        requires { IsOfRun self.now }
        ensures name { IfOk result (λ b. b.name ≡ name) }
        ensures row { IfOk result (IsInnerBox self.now) }
    {
        let Some(entry) = self.boxes.get(name) else {
            return Err(AllocError);
        };
        let solved = self.is_solved_down_to(alloc, name, entry)?;
        let store = entry.store.share()?;
        let goals = self.inner_goals(alloc, &entry.goals)?;
        let body = Vec::from_slice(alloc, entry.body.as_slice())?;
        let shown = same_shown(alloc, entry.shown.as_slice())?;
        Ok(InnerBox {
            name,
            holder: entry.holder,
            store,
            solved,
            goals,
            body,
            shown,
            collected: entry.collected,
        })
    }

    // Boxes with all that a copy of each needs.
    fn inner_boxes(&self, alloc: Global, names: &[Name]) -> Result<Vec<InnerBox>, AllocError>
        requires { IsOfRun self.now }
        ensures names { IfOk result (λ v. map (λ b. b.name) v.items ≡ names.now) }
        ensures rows { IfOk result (λ v. AllByRecursion (IsInnerBox self.now) v.items) }
    {
        let mut boxes = Vec::new(alloc);
        for name in names {
            let found = self.inner_box(alloc, *name)?;
            boxes.push(found)?;
        }
        Ok(boxes)
    }

    // What a worker sees of a place that is there.
    fn view_at(
        &self,
        alloc: Global,
        journal: &Vec<Label>,
        place: Place,
        worker: u32,
    ) -> Result<View, AllocError>
        requires { IsTableOf all_rules (run_of self.now journal.now.items) (table_of self.now) }
        ensures place { IfOk result (λ v. v.place ≡ place) }
        ensures seen { IfOk result (IsSeenBy self.now journal.now.items worker) }
    {
        let Ok(view) = self.look(alloc, journal, place, worker) else {
            return Err(AllocError);
        };
        Ok(view)
    }

    // What a worker sees of places.
    fn views_at(
        &self,
        alloc: Global,
        journal: &Vec<Label>,
        places: &[Place],
        worker: u32,
    ) -> Result<Vec<View>, AllocError>
        requires { IsTableOf all_rules (run_of self.now journal.now.items) (table_of self.now) }
        ensures places { IfOk result (λ v. map (λ w. w.place) v.items ≡ places.now) }
        ensures seen { IfOk result (λ v. AllByRecursion (IsSeenBy self.now journal.now.items worker) v.items) }
    {
        let mut views = Vec::new(alloc);
        for place in places {
            let view = self.view_at(alloc, journal, *place, worker)?;
            views.push(view)?;
        }
        Ok(views)
    }

    /// A box and all boxes inside it, each once. An `Err` comes for want of memory.
    pub fn boxes_inside(&self, alloc: Global, name: Name) -> Result<Vec<InnerBox>, AllocError>
        requires { IsOfRun self.now }
        ensures { IfOk result (λ boxes. AreBoxesInside self.now name boxes.items) }
    {
        let names = self.inside(alloc, name)?;
        let boxes = self.inner_boxes(alloc, names.as_slice())?;
        Ok(boxes)
    }

    /// All that stands in a box and inside it, as a worker sees it. An `Err` comes for want of memory.
    pub fn look_inside(
        &self,
        alloc: Global,
        journal: &Vec<Label>,
        name: Name,
        worker: u32,
    ) -> Result<Inside, AllocError>
        requires table { IsTableOf all_rules (run_of self.now journal.now.items) (table_of self.now) }
        requires there { is_there (table_of self.now) (Place.Box name) ≡ true }
        ensures { IfOk result (IsInsideOf self.now journal.now.items name worker) }
    {
        let boxes = self.boxes_inside(alloc, name)?;
        let places = places_in(alloc, boxes.as_slice())?;
        let views = self.views_at(alloc, journal, places.as_slice(), worker)?;
        Ok(Inside { boxes, views })
    }
}
