//! The places that a plan's label takes away, and those that it opens.

ghost use Rattle.std.specs.Prelude.{◌≡◌, ◌++◌, ◌&&◌, true, not, is_some, IfOk, OnOk};
ghost use Rattle.std.specs.List.{list_any};
ghost use Rattle.akl_terms.specs.declared.name.Place.{Place};
ghost use Rattle.local_store.specs.Stored.{is_named, all_named};
ghost use Rattle.wake_lists.specs.Waits.{places_at};
ghost use Rattle.opened_places.specs.Placed.{places_of};
ghost use Rattle.opened_places.specs.Exact.{IsAround};
ghost use Rattle.box_tree.specs.Tables.{table_of, step_in};
ghost use Rattle.box_tree.specs.Drops.{IsOfRun};
ghost use Rattle.box_tree.specs.Views.{is_there};
ghost use Rattle.opened_places.specs.Gone.{AreGone};
ghost use Rattle.scheduler.specs.Once.{IsEachPlaceOnce};
ghost use Rattle.scheduler.specs.Turns.{AreHintsFor};
ghost use Rattle.scheduler.specs.Listing.{waiting_on, places_but, has_outer, outer_of, frames_made, frames_added, AreInner, AreOthers, AreOthersOnce, AddsOthers, AreListedFor};

use crate::dropping::is_among;
use crate::hints::Hints;
use crate::once::each_once;
use crate::placing::push_those;
use crate::turns::TurnHints;
use crate::waiting::{Added, Waited, added_by, still_waiting};
use akl_terms::{Name, Place, Var};
use box_tree::{Plan, ShortList, Table};
use opened_places::{Around, Placed, around_of, changed_places, gone_places, places_inside};
use std::alloc::{AllocError, Global};
use wake_lists::Waits;

/// What the label of a plan does to places.
#[derive(Drop)]
pub(crate) struct Effects {
    /// The places that go with it, each once.
    pub gone: ShortList<Place>,
    /// The places that it opens, each with the boxes around it; one that it changes may be listed twice.
    pub opened: Vec<Placed>,
    /// What it tells of their turns.
    pub hints: TurnHints,
    /// Those of them that come late, until one of these variables is bound.
    pub waiting: Vec<Waited>,
}

impl Effects {
    /// What the label of a plan does. It takes as long as the places are many, times their depth. An `Err` comes for want of
    /// memory, and where the label's place isn't there, as it is for each plan that may be committed.
    pub(crate) fn of(
        alloc: Global,
        table: &Table,
        waits: &Waits,
        sooner: &Hints,
        plan: &Plan,
    ) -> Result<Effects, AllocError>
        requires { IsOfRun table.now }
        ensures gone { IfOk result (λ e. AreGone table.now plan.now.label plan.now.step e.gone.items) }
        ensures once { IfOk result (λ e. IsEachPlaceOnce e.gone.items) }
        ensures opened { IfOk result (λ e. AreListedFor table.now waits.now plan.now e.gone.items e.opened.items) }
        ensures hints { IfOk result (λ e. AreHintsFor table.now plan.now e.hints) }
    {
        let Some(around) = around_of(table, plan.label()) else {
            return Err(AllocError);
        };
        let Some(store) = table.store_of(around.home) else {
            return Err(AllocError);
        };
        let added = added_by(store, plan.step());
        let gone = gone_once(alloc, table, plan)?;
        let others = opened_others(alloc, table, waits, plan, around, added, gone.as_slice())?;
        let opened = opened_with(alloc, table, plan, around, others.as_slice())?;
        let changed = changed_of(opened.as_slice(), others.as_slice().len());
        let waiting = still_waiting(alloc, waits, added, others.as_slice(), changed)?;
        let hints = TurnHints::of(alloc, around.home, added, plan, sooner)?;
        Ok(Effects {
            gone,
            opened,
            hints,
            waiting,
        })
    }
}

// Of the places that a label opens those that it changes, where so many others stand behind them.
fn changed_of(opened: &[Placed], others: usize) -> &[Placed] {
    &opened[..opened.len().saturating_sub(others)]
}

// The places that go with the label of a plan, each once. An `Err` comes for want of memory.
fn gone_once(alloc: Global, table: &Table, plan: &Plan) -> Result<ShortList<Place>, AllocError>
    requires { IsOfRun table.now }
    ensures gone { IfOk result (λ gone. AreGone table.now plan.now.label plan.now.step gone.items) }
    ensures once { IfOk result (λ gone. IsEachPlaceOnce gone.items) }
{
    let gone = gone_places(alloc, table, plan.label(), plan.step())?;
    each_once(alloc, gone)
}

// The places that the label changes, and these.
fn opened_with(
    alloc: Global,
    table: &Table,
    plan: &Plan,
    around: Around,
    others: &[Place],
) -> Result<Vec<Placed>, AllocError>
    requires run { IsOfRun table.now }
    requires there { is_there (table_of table.now) plan.now.label.place ≡ true }
    requires around { IsAround (table_of table.now) plan.now.label around }
    ensures { IfOk result (λ places. AddsOthers table.now plan.now others.now places.items) }
{
    let mut places = changed_places(alloc, table, plan.label(), plan.step(), around)?;
    push_those(alloc, table, others, &mut places)?;
    Ok(places)
}

// The other places that the label opens, each once.
fn opened_others(
    alloc: Global,
    table: &Table,
    waits: &Waits,
    plan: &Plan,
    around: Around,
    added: Option<Added>,
    gone: &[Place],
) -> Result<ShortList<Place>, AllocError>
    requires run { IsOfRun table.now }
    requires there { is_there (table_of table.now) (Place.Box around.home) ≡ true }
    requires added { frames_added added ≡ frames_made (step_in table.now plan.now.label plan.now.step) }
    ensures { IfOk result (λ others. AreOthersOnce table.now waits.now plan.now around gone.now others.items) }
{
    let others = all_others(alloc, table, waits, plan, around, added, gone)?;
    each_once(alloc, others)
}

// The places that wait on a variable that the label binds, as often as they do; and where it binds one that is external to
// its box, all that stand in the box and don't go.
fn all_others(
    alloc: Global,
    table: &Table,
    waits: &Waits,
    plan: &Plan,
    around: Around,
    added: Option<Added>,
    gone: &[Place],
) -> Result<ShortList<Place>, AllocError>
    requires run { IsOfRun table.now }
    requires there { is_there (table_of table.now) (Place.Box around.home) ≡ true }
    requires added { frames_added added ≡ frames_made (step_in table.now plan.now.label plan.now.step) }
    ensures { IfOk result (λ others. AreOthers table.now waits.now plan.now around gone.now others.items) }
{
    let mut places = ShortList::new();
    push_woken(alloc, waits, plan.binds(), &mut places)?;
    if binds_outer(around, added, plan.binds()) {
        push_inner(alloc, table, around.home, gone, &mut places)?;
    }
    Ok(places)
}

// The places that wait on these variables come to the end of the places.
fn push_woken(
    alloc: Global,
    waits: &Waits,
    binds: &[Var],
    places: &mut ShortList<Place>,
) -> Result<(), AllocError>
    ensures { OnOk result (places.new.items ≡ places.old.items ++ waiting_on waits.now binds.now) }
{
    if waits.is_empty() {
        return Ok(());
    }
    for variable in binds {
        push_waiting(alloc, waits, *variable, places)?;
    }
    Ok(())
}

// The places that wait on a variable come.
fn push_waiting(
    alloc: Global,
    waits: &Waits,
    variable: Var,
    places: &mut ShortList<Place>,
) -> Result<(), AllocError>
    ensures { OnOk result (places.new.items ≡ places.old.items ++ places_at variable waits.now) }
{
    for place in waits.woken_by(variable) {
        places.push(alloc, place)?;
    }
    Ok(())
}

// Whether one of these variables is external to a box that is no root box, as it is of none of the frames of its store with
// what is added to it; none is where nothing is added.
fn binds_outer(around: Around, added: Option<Added>, binds: &[Var]) -> bool
    ensures { result ≡ (is_some around.holder && outer_of binds.now (frames_added added.entry)) }
{
    if around.holder.is_none() {
        return false;
    }
    match added {
        Some(added) => has_outer(added, binds),
        None => false,
    }
}

// The same where something is added.
fn has_outer(added: Added, binds: &[Var]) -> bool
    ensures { result ≡ has_outer binds.now (all_named added.entry.store.now.frames added.entry.part.now.frames.items) }
{
    binds
        .iter()
        .any(|variable| !added.has_frame(variable.frame))
}

// All that stand in a box, but these, come.
fn push_inner(
    alloc: Global,
    table: &Table,
    home: Name,
    gone: &[Place],
    places: &mut ShortList<Place>,
) -> Result<(), AllocError>
    requires run { IsOfRun table.now }
    requires there { is_there (table_of table.now) (Place.Box home) ≡ true }
    ensures { OnOk result (AreInner table.now home gone.now places.old.items places.new.items) }
{
    let inside = places_inside(alloc, table, home)?;
    push_staying(alloc, inside.as_slice(), gone, places)
}

// Places come that aren't among those that go.
fn push_staying(
    alloc: Global,
    inside: &[Placed],
    gone: &[Place],
    places: &mut ShortList<Place>,
) -> Result<(), AllocError>
    ensures { OnOk result (places.new.items ≡ places.old.items ++ places_but gone.now (places_of inside.now)) }
{
    for placed in inside {
        if !is_among(placed.place(), gone) {
            places.push(alloc, placed.place())?;
        }
    }
    Ok(())
}
