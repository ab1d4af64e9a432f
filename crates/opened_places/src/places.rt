//! The places that a step changes.

ghost use Rattle.std.specs.Prelude.{◌≡◌, ◌++◌, List, [], ◌∷◌, map, true, option_map, IfOk, OnOk};
ghost use Rattle.akl_terms.specs.declared.name.Place.{Place};
ghost use Rattle.akl_terms.specs.declared.term.Node.{Node};
ghost use Rattle.local_store.specs.Stored.{Stored};
ghost use Rattle.box_tree.specs.Tables.{table_of, new_box, step_of};
ghost use Rattle.box_tree.specs.Drops.{IsOfRun};
ghost use Rattle.box_tree.specs.Paths.{outside_of, HasPath, IsPath};
ghost use Rattle.box_tree.specs.Views.{is_there};
ghost use Rattle.opened_places.specs.Placed.{placed, all_but_last, goals_placed};
ghost use Rattle.opened_places.specs.Exact.{IsAround, AreChanged};
ghost use Rattle.opened_places.specs.Listed.{holder_placed, holder_both, choice_placed, new_placed, goal_turns, goal_goes, box_parts, AreListed};

use crate::around::{Around, Holder};
use crate::copies::push_copies;
use crate::placed::{Placed, all_but_last, push_placed};
use akl_model::Label;
use akl_terms::{Name, Place};
use box_tree::{NewBox, ShortList, Step, Table};
use smallvec::SmallVec;
use std::alloc::{AllocError, Global};

// Most labels change no more places than this.
const ROOM: usize = 8;

/// Goals with these boxes around them come to the end of the places.
pub(crate) fn push_goals<T>(
    alloc: Global,
    goals: &[(Name, T)],
    around: &[Name],
    places: &mut Vec<Placed>,
) -> Result<(), AllocError>
    ensures { OnOk result (places.new.items ≡ places.old.items ++ goals_placed around.now (map (λ x. x.0) goals.now)) }
{
    for (name, _) in goals {
        push_placed(alloc, Place::Goal(*name), around, places)?;
    }
    Ok(())
}

// A new box comes with its goals, where these boxes are around it; the path is as before then.
fn push_new_box(
    alloc: Global,
    made: &NewBox,
    path: &mut SmallVec<Name, 4>,
    places: &mut Vec<Placed>,
) -> Result<(), AllocError>
    ensures placed { OnOk result (places.new.items ≡ places.old.items ++ (placed (Place.Box made.now.name) path.old.items ∷ goals_placed (path.old.items ++ made.now.name ∷ []) (map (λ x. x.0) made.now.goals.items))) }
    ensures path { OnOk result (path.new.items ≡ path.old.items) }
{
    push_placed(alloc, Place::Box(made.name), path.as_slice(), places)?;
    path.push(made.name)?;
    push_goals(alloc, made.goals.as_slice(), path.as_slice(), places)?;
    path.pop();
    Ok(())
}

// New boxes come, each with its goals, where these boxes are around them.
fn push_new(
    alloc: Global,
    boxes: &[NewBox],
    around: &[Name],
    places: &mut Vec<Placed>,
) -> Result<(), AllocError>
    ensures { OnOk result ((nodes : List Node) → places.new.items ≡ places.old.items ++ new_placed around.now (map (new_box nodes) boxes.now)) }
{
    let mut path = SmallVec::from_slice(alloc, around)?;
    for made in boxes {
        push_new_box(alloc, made, &mut path, places)?;
    }
    Ok(())
}

// A choice comes, where there is one.
fn push_choice(
    alloc: Global,
    choice: Option<Name>,
    around: &[Name],
    places: &mut Vec<Placed>,
) -> Result<(), AllocError>
    ensures { OnOk result (places.new.items ≡ places.old.items ++ choice_placed around.now choice) }
{
    match choice {
        Some(goal) => push_placed(alloc, Place::Goal(goal), around, places)?,
        None => {}
    }
    Ok(())
}

// The choice that holds a box comes.
fn push_holder(
    alloc: Global,
    holder: Option<Holder>,
    around: &[Name],
    places: &mut Vec<Placed>,
) -> Result<(), AllocError>
    ensures { OnOk result (places.new.items ≡ places.old.items ++ holder_placed around.now holder) }
{
    match holder {
        Some(found) => push_placed(alloc, Place::Goal(found.goal), around, places)?,
        None => {}
    }
    Ok(())
}

// The choice that holds a box comes, and the box in which it stands.
fn push_holder_home(
    alloc: Global,
    holder: Option<Holder>,
    around: &[Name],
    places: &mut Vec<Placed>,
) -> Result<(), AllocError>
    ensures { OnOk result (places.new.items ≡ places.old.items ++ holder_both around.now holder) }
{
    match holder {
        Some(found) => {
            push_placed(alloc, Place::Goal(found.goal), around, places)?;
            push_placed(alloc, Place::Box(found.home), all_but_last(around), places)?;
        }
        None => {}
    }
    Ok(())
}

// The places where the goal of a label goes: its box, and the choice that holds this.
fn goal_goes(alloc: Global, around: Around, path: &[Name]) -> Result<Vec<Placed>, AllocError>
    ensures { IfOk result (λ places. places.items ≡ goal_goes around path.now) }
{
    let mut places = Vec::with_capacity(alloc, ROOM)?;
    let outer = all_but_last(path);
    push_placed(alloc, Place::Box(around.home), outer, &mut places)?;
    push_holder(alloc, around.holder, outer, &mut places)?;
    Ok(places)
}

// The places where the goal of a label becomes another one: the goal and its box.
fn goal_turns(
    alloc: Global,
    place: Place,
    around: Around,
    path: &[Name],
) -> Result<Vec<Placed>, AllocError>
    ensures { IfOk result (λ places. places.items ≡ goal_turns place around path.now) }
{
    let mut places = Vec::with_capacity(alloc, ROOM)?;
    push_placed(alloc, place, path, &mut places)?;
    push_placed(
        alloc,
        Place::Box(around.home),
        all_but_last(path),
        &mut places,
    )?;
    Ok(places)
}

// The places where a box becomes two, but the copies: the choice of the split with its box, and the choice that holds
// the box, with the box in which this stands.
fn box_parts(alloc: Global, around: Around, path: &[Name]) -> Result<Vec<Placed>, AllocError>
    ensures { IfOk result (λ places. places.items ≡ box_parts around path.now) }
{
    let mut places = Vec::with_capacity(alloc, ROOM)?;
    let outer = all_but_last(path);
    push_choice(alloc, around.choice, path, &mut places)?;
    push_placed(alloc, Place::Box(around.home), outer, &mut places)?;
    push_holder_home(alloc, around.holder, outer, &mut places)?;
    Ok(places)
}

// The places that a step changes, where these boxes lead down to the box of its label's place.
fn listed(
    alloc: Global,
    place: Place,
    step: &Step,
    around: Around,
    path: &[Name],
) -> Result<Vec<Placed>, AllocError>
    ensures { IfOk result (λ places. (nodes : List Node) (s : Stored) → AreListed place around path.now (step_of nodes s step.now) places.items) }
{
    match step {
        Step::Tell { .. } | Step::Confirm => {
            let places = goal_goes(alloc, around, path)?;
            Ok(places)
        }
        Step::Fork { alternatives, .. } => {
            let mut places = goal_turns(alloc, place, around, path)?;
            push_new(alloc, alternatives.as_slice(), path, &mut places)?;
            Ok(places)
        }
        Step::Fail => {
            let mut places = Vec::new(alloc);
            push_holder_home(alloc, around.holder, all_but_last(path), &mut places)?;
            Ok(places)
        }
        Step::Cut | Step::Refute => {
            let places = goal_turns(alloc, place, around, path)?;
            Ok(places)
        }
        Step::Join { goals, .. } => {
            let mut places = goal_goes(alloc, around, path)?;
            push_goals(alloc, goals.as_slice(), path, &mut places)?;
            Ok(places)
        }
        Step::Split { copies, .. } => {
            let mut places = box_parts(alloc, around, path)?;
            push_copies(alloc, copies.as_slice(), all_but_last(path), &mut places)?;
            Ok(places)
        }
    }
}

// The boxes down to the box of a label's place; those around it are looked up from the box that its holder stands in.
fn path_around(alloc: Global, table: &Table, around: Around) -> Result<ShortList<Name>, AllocError>
    requires path { HasPath table.now around.home }
    requires outside { outside_of (table_of table.now) around.home ≡ option_map (λ h. h.home) around.holder }
    ensures { IfOk result (λ path. IsPath (table_of table.now) around.home path.items) }
{
    match around.holder {
        Some(holder) => {
            let mut path = table.path_to(alloc, holder.home)?;
            path.push(alloc, around.home)?;
            Ok(path)
        }
        None => Ok(ShortList::of(around.home)),
    }
}

/// The places that a step changes, so that it opens them, each with the boxes around it once the step is made: what is
/// new, a goal that changes with its box, a box whose constraint or set of goals changes, and the choice that holds a box
/// whose set of goals changes. They are exactly these wherever the step leads on from the configuration of the table, by
/// this label or by a call at once of which it is the first. It takes as long as they are many, times their depth. An
/// `Err` comes for want of memory, and of a split whose copies hold one another in a ring, which no label makes.
pub fn changed_places(
    alloc: Global,
    table: &Table,
    label: Label,
    step: &Step,
    around: Around,
) -> Result<Vec<Placed>, AllocError>
    requires run { IsOfRun table.now }
    requires there { is_there (table_of table.now) label.place ≡ true }
    requires around { IsAround (table_of table.now) label around }
    ensures { IfOk result (λ places. AreChanged table.now label step.now places.items) }
{
    let path = path_around(alloc, table, around)?;
    let places = listed(alloc, label.place, step, around, path.as_slice())?;
    Ok(places)
}
