//! The places that go with a step.

ghost use Rattle.std.specs.Prelude.{◌≡◌, ◌++◌, List, [], ◌∷◌, IfOk, OnOk};
ghost use Rattle.akl_terms.specs.declared.term.Node.{Node};
ghost use Rattle.akl_terms.specs.declared.name.Place.{Place};
ghost use Rattle.local_store.specs.Stored.{Stored};
ghost use Rattle.table_laws.specs.Writes.{cut_from, others_beside};
ghost use Rattle.table_laws.specs.Going.{boxes_going};
ghost use Rattle.box_tree.specs.Tables.{table_of, step_of};
ghost use Rattle.box_tree.specs.Drops.{IsOfRun};
ghost use Rattle.opened_places.specs.Gone.{goals_named, own_places, places_at, AddsInsideEach, AreGone};

use crate::placed::{Names, names_of};
use akl_model::Label;
use akl_terms::{Name, Place};
use box_tree::{HeldOp, ShortList, Sight, Step, Table, parted};
use std::alloc::{AllocError, Global};

// The goal of the label's place, where it goes by itself.
fn own_places(place: Place, step: &Step) -> ShortList<Place>
    ensures { (nodes : List Node) (s : Stored) → result.items ≡ own_places place (step_of nodes s step.now) }
{
    match step {
        Step::Tell { .. } | Step::Join { .. } | Step::Confirm => ShortList::of(place),
        Step::Fork { .. } | Step::Fail | Step::Cut | Step::Refute | Step::Split { .. } => {
            ShortList::new()
        }
    }
}

// The alternatives that go where a choice is cut at one of them.
fn cut_from(alloc: Global, table: &Table, goal: Name, name: Name) -> Result<Names, AllocError>
    ensures { IfOk result (λ gone. gone.items ≡ cut_from name ((table_of table.now).goal_of goal)) }
{
    let Some((_, sight)) = table.sight_of(Place::Goal(goal)) else {
        return Ok(Names::new(alloc));
    };
    match sight {
        Sight::Choice { op } => {
            let (_, gone) = parted(alloc, op, name, table.alternatives_of(goal))?;
            Ok(Names::from_vec(gone))
        }
        Sight::Atom(_) | Sight::Box { .. } => Ok(Names::new(alloc)),
    }
}

// The other alternatives of the choice that holds one.
fn others_beside(alloc: Global, table: &Table, name: Name) -> Result<Names, AllocError>
    ensures { IfOk result (λ others. others.items ≡ others_beside (table_of table.now) name) }
{
    match table.holder_of(name) {
        Some(choice) => {
            let alternatives = table.alternatives_of(choice);
            let (_, others) = parted(alloc, HeldOp::Commit, name, alternatives)?;
            Ok(Names::from_vec(others))
        }
        None => Ok(Names::new(alloc)),
    }
}

// One name.
fn one(alloc: Global, name: Name) -> Result<Names, AllocError>
    ensures { IfOk result (λ names. names.items ≡ name ∷ []) }
{
    Names::from_slice(alloc, &[name])
}

// The boxes that go with all that stands in them, by a label of this goal.
fn going_at_goal(
    alloc: Global,
    table: &Table,
    goal: Name,
    alternative: Option<Name>,
    step: &Step,
) -> Result<Names, AllocError>
    ensures { IfOk result (λ boxes. (nodes : List Node) (s : Stored) → boxes.items ≡ boxes_going (table_of table.now) (step_of nodes s step.now) (Place.Goal goal) alternative) }
{
    match step {
        Step::Cut => match alternative {
            Some(name) => cut_from(alloc, table, goal, name),
            None => Ok(Names::new(alloc)),
        },
        Step::Join { .. } => names_of(alloc, table.alternatives_of(goal)),
        Step::Tell { .. } | Step::Fork { .. } | Step::Fail => Ok(Names::new(alloc)),
        Step::Refute | Step::Confirm | Step::Split { .. } => Ok(Names::new(alloc)),
    }
}

// The boxes that go with all that stands in them, by a label of this box.
fn going_at_box(
    alloc: Global,
    table: &Table,
    name: Name,
    alternative: Option<Name>,
    step: &Step,
) -> Result<Names, AllocError>
    ensures { IfOk result (λ boxes. (nodes : List Node) (s : Stored) → boxes.items ≡ boxes_going (table_of table.now) (step_of nodes s step.now) (Place.Box name) alternative) }
{
    match step {
        Step::Fail => one(alloc, name),
        Step::Split { .. } => match alternative {
            Some(other) => others_beside(alloc, table, other),
            None => Ok(Names::new(alloc)),
        },
        Step::Tell { .. } | Step::Fork { .. } | Step::Cut => Ok(Names::new(alloc)),
        Step::Join { .. } | Step::Refute | Step::Confirm => Ok(Names::new(alloc)),
    }
}

// The boxes that go with all that stands in them.
fn going(alloc: Global, table: &Table, label: Label, step: &Step) -> Result<Names, AllocError>
    ensures { IfOk result (λ boxes. (nodes : List Node) (s : Stored) → boxes.items ≡ boxes_going (table_of table.now) (step_of nodes s step.now) label.place label.alternative) }
{
    match label.place {
        Place::Goal(goal) => going_at_goal(alloc, table, goal, label.alternative, step),
        Place::Box(name) => going_at_box(alloc, table, name, label.alternative, step),
    }
}

// Goals come to the end of the places.
fn push_goals(
    alloc: Global,
    goals: &[Name],
    places: &mut ShortList<Place>,
) -> Result<(), AllocError>
    ensures { OnOk result (places.new.items ≡ places.old.items ++ goals_named goals.now) }
{
    for goal in goals {
        places.push(alloc, Place::Goal(*goal))?;
    }
    Ok(())
}

// Boxes come to the end of the places, each with the goals directly in it.
fn push_boxes(
    alloc: Global,
    table: &Table,
    boxes: &[Name],
    places: &mut ShortList<Place>,
) -> Result<(), AllocError>
    ensures { OnOk result (places.new.items ≡ places.old.items ++ places_at (table_of table.now) boxes.now) }
{
    for name in boxes {
        places.push(alloc, Place::Box(*name))?;
        let goals = table.goals_of(alloc, *name)?;
        push_goals(alloc, goals.as_slice(), places)?;
    }
    Ok(())
}

// Boxes come, each with all that stands in it.
fn push_inside_each(
    alloc: Global,
    table: &Table,
    tops: &[Name],
    places: &mut ShortList<Place>,
) -> Result<(), AllocError>
    requires { IsOfRun table.now }
    ensures { OnOk result (AddsInsideEach (table_of table.now) tops.now places.old.items places.new.items) }
{
    for name in tops {
        let boxes = table.inside(alloc, *name)?;
        push_boxes(alloc, table, boxes.as_slice(), places)?;
    }
    Ok(())
}

/// The places that are there before a step is made and aren't afterwards, wherever the step leads on from the configuration
/// of the table, by this label or by a call at once of which it is the first: the goal that it takes away, the alternative
/// that is promoted, and each box that fails or is cut off with all that stands in it. It takes as long as they are many, and
/// the alternatives of the choice that is cut or split. An `Err` comes for want of memory.
pub fn gone_places(
    alloc: Global,
    table: &Table,
    label: Label,
    step: &Step,
) -> Result<ShortList<Place>, AllocError>
    requires { IsOfRun table.now }
    ensures { IfOk result (λ places. AreGone table.now label step.now places.items) }
{
    let tops = going(alloc, table, label, step)?;
    let mut places = own_places(label.place, step);
    push_inside_each(alloc, table, tops.as_slice(), &mut places)?;
    Ok(places)
}
