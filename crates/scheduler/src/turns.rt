//! When open places come, once a label was made.

ghost use Rattle.std.specs.Prelude.{◌≡◌, ◌++◌, true, IfOk, OnOk};
ghost use Rattle.akl_terms.specs.declared.name.Place.{Place};
ghost use Rattle.box_tree.specs.Paths.{sight_in};
ghost use Rattle.opened_places.specs.Placed.{places_of};
ghost use Rattle.wake_lists.specs.Open.{untimed};
ghost use Rattle.wake_lists.specs.declared.turn.Urgency.{Urgency};
ghost use Rattle.scheduler.specs.Turns.{urgency_seen, told_by, unsolved_by, unsolved_among, unless_solved, is_elsewhere, may_fail, IsUrgentAt, AreUrgent, AreUrgentBoxes, StayUrgent, BoxesStayUrgent, AreHints};

use crate::attention::collects;
use crate::hints::{Hints, most_hints};
use crate::scheduler::Scheduler;
use crate::waiting::{Added, Waited};
use akl_terms::{Name, Place, Var};
use box_tree::{NewBox, Plan, Sight, Step, Table};
use opened_places::Placed;
use std::alloc::{AllocError, Global};
use wake_lists::{Open, Urgency};

/// What the label of a plan tells of the turns of the places that it opens.
#[derive(Drop)]
pub(crate) struct TurnHints {
    /// The boxes whose stores it leaves unsolved, as it does one with a clash.
    unsolved: Vec<Name>,
    /// The box that it tells something; the stores of other boxes that it opens may clash with that.
    told: Option<Name>,
    /// The call that it forks, where no alternative is solved from the start, so that no rule applies to it yet.
    forked: Option<Place>,
    /// The place of the label.
    own: Place,
    /// The variables that it binds, of those on which late calls wait.
    bound: Vec<Var>,
}

impl TurnHints {
    /// What the label of a plan tells, whose place is this box or stands in it.
    pub(crate) fn of(
        alloc: Global,
        home: Name,
        added: Option<Added>,
        plan: &Plan,
        sooner: &Hints,
    ) -> Result<TurnHints, AllocError>
        ensures { IfOk result (AreHints home plan.now.step) }
    {
        let unsolved = unsolved_by(alloc, home, plan.step())?;
        let bound = sooner.bound_by(added, plan)?;
        Ok(TurnHints {
            unsolved,
            told: told_by(home, plan.step()),
            forked: forked_by(plan),
            own: plan.label().place,
            bound,
        })
    }
}

// The box that a step tells something, where its label's place is this box or stands in it.
fn told_by(home: Name, step: &Step) -> Option<Name>
    ensures { result ≡ told_by home step.now }
{
    match step {
        Step::Tell { .. } | Step::Join { .. } => Some(home),
        Step::Fork { .. }
        | Step::Fail
        | Step::Cut
        | Step::Refute
        | Step::Confirm
        | Step::Split { .. } => None,
    }
}

// The boxes whose stores a step leaves unsolved, where its label's place is this box or stands in it.
fn unsolved_by(alloc: Global, home: Name, step: &Step) -> Result<Vec<Name>, AllocError>
    ensures { IfOk result (λ names. names.items ≡ unsolved_by home step.now) }
{
    let mut unsolved = Vec::new(alloc);
    match step {
        Step::Tell { solved, .. } | Step::Join { solved, .. } => {
            push_unless(*solved, home, &mut unsolved)?;
        }
        Step::Fork { alternatives, .. } => {
            push_unsolved(alternatives.as_slice(), &mut unsolved)?;
        }
        Step::Fail | Step::Cut | Step::Refute | Step::Confirm | Step::Split { .. } => {}
    }
    Ok(unsolved)
}

// A box comes whose store is unsolved.
fn push_unless(solved: bool, name: Name, unsolved: &mut Vec<Name>) -> Result<(), AllocError>
    ensures { OnOk result (unsolved.new.items ≡ unsolved.old.items ++ unless_solved solved name) }
{
    if !solved {
        unsolved.push(name)?;
    }
    Ok(())
}

// Those of these new boxes come whose stores are unsolved.
fn push_unsolved(boxes: &[NewBox], unsolved: &mut Vec<Name>) -> Result<(), AllocError>
    ensures { OnOk result (unsolved.new.items ≡ unsolved.old.items ++ unsolved_among boxes.now) }
{
    for made in boxes {
        push_unless(made.solved, made.name, unsolved)?;
    }
    Ok(())
}

// The call that a plan forks, where each alternative has goals.
fn forked_by(plan: &Plan) -> Option<Place> {
    match plan.step() {
        Step::Fork { alternatives, .. } => {
            if alternatives.iter().any(|new| new.goals.is_empty()) {
                None
            } else {
                Some(plan.label().place)
            }
        }
        Step::Tell { .. }
        | Step::Fail
        | Step::Cut
        | Step::Join { .. }
        | Step::Refute
        | Step::Confirm
        | Step::Split { .. } => None,
    }
}

// As many labels are made for each open place before all late places come again.
pub(crate) const LABELS_A_PLACE: usize = 16;

impl Scheduler {
    /// Gives turns to the places that a label opened, and to those that went with it.
    ///
    /// Those boxes are urgent that have a goal by which they fail, whose stores the label left unsolved, or may clash with
    /// what it told. Late are other boxes, as no rule but Split may apply to them, a choice without a solved alternative, one
    /// that collects with an alternative that isn't solved, and a goal that waits, which was woken though the label binds none
    /// of its variables. What went isn't late, so that it is forgotten soon. Once sixteen labels were made for each open place,
    /// all late places come as ordinary ones. Where memory is wanting, what isn't urgent comes as it did.
    pub(crate) fn set_turns(
        &mut self,
        places: &[Placed],
        gone: &[Place],
        hints: &TurnHints,
        waiting: &[Waited],
    )
        ensures urgent { AreUrgent self.new.core.table hints.now.told (places_of places.now) self.new.openings }
        ensures unsolved { AreUrgentBoxes hints.now.unsolved.items self.new.openings }
        ensures places { untimed self.new.openings ≡ untimed self.old.openings }
        ensures core { self.new.core ≡ self.old.core }
        ensures waits { self.new.waits ≡ self.old.waits }
    {
        resume_late(&mut self.open, &mut self.labels);
        resume_bound(&mut self.open, &mut self.hints, hints.bound.as_slice());
        order_all(&mut self.open, self.core.table(), places, gone, hints);
        delay_waiting(&mut self.open, &mut self.hints, waiting);
    }
}

// Counts a label. All late places come as ordinary ones where there were enough of them since they last did.
fn resume_late(open_places: &mut Open, labels: &mut usize)
    ensures { untimed open_places.new ≡ untimed open_places.old }
{
    if *labels < open_places.count().saturating_mul(LABELS_A_PLACE) {
        *labels += 1;
    } else {
        *labels = 0;
        open_places.resume_late();
    }
}

// The goals that come sooner as these variables are bound aren't late.
fn resume_bound(open_places: &mut Open, sooner: &mut Hints, bound: &[Var])
    ensures { untimed open_places.new ≡ untimed open_places.old }
{
    for variable in bound {
        if let Some(goals) = sooner.take(*variable) {
            resume_goals(open_places, goals.as_slice());
        }
    }
}

// These goals aren't late.
fn resume_goals(open_places: &mut Open, goals: &[Name])
    ensures { untimed open_places.new ≡ untimed open_places.old }
{
    for goal in goals {
        resume(open_places, Place::Goal(*goal));
    }
}

// The places that were opened or went, and the unsolved boxes, come as soon as they are to.
fn order_all(
    open_places: &mut Open,
    table: &Table,
    places: &[Placed],
    gone: &[Place],
    hints: &TurnHints,
)
    ensures urgent { AreUrgent table.now hints.now.told (places_of places.now) open_places.new }
    ensures unsolved { AreUrgentBoxes hints.now.unsolved.items open_places.new }
    ensures places { untimed open_places.new ≡ untimed open_places.old }
{
    delay(open_places, hints.forked);
    hurry_gone(open_places, hints.own, gone);
    hurry_unsolved(open_places, hints.unsolved.as_slice());
    hurry_opened(open_places, table, places, hints.told);
}

// A call is late, if it is open and memory suffices.
fn delay(open_places: &mut Open, call: Option<Place>)
    ensures { untimed open_places.new ≡ untimed open_places.old }
{
    if let Some(Place::Goal(goal)) = call {
        delay_goal(open_places, goal);
    }
}

// A goal is late, if it is open and memory suffices.
fn delay_goal(open_places: &mut Open, goal: Name)
    ensures boxes { BoxesStayUrgent open_places.old open_places.new }
    ensures places { untimed open_places.new ≡ untimed open_places.old }
{
    if let Some(token) = open_places.token_of(Place::Goal(goal)) {
        let _ = open_places.put_last(token, Urgency::Late);
    }
}

// These goals are late, until one of the variables on which they waited is bound, if memory suffices.
fn delay_waiting(open_places: &mut Open, sooner: &mut Hints, waiting: &[Waited])
    ensures boxes { BoxesStayUrgent open_places.old open_places.new }
    ensures places { untimed open_places.new ≡ untimed open_places.old }
{
    for waited in waiting {
        delay_goal(open_places, waited.goal);
        let _ = sooner.add(waited.on, waited.goal, most_hints(open_places.count()));
    }
}

// These places aren't late; but this one of them is closed.
fn hurry_gone(open_places: &mut Open, own: Place, gone: &[Place])
    ensures { untimed open_places.new ≡ untimed open_places.old }
{
    for place in gone {
        if *place != own {
            resume(open_places, *place);
        }
    }
}

// A place isn't late, if it is open and memory suffices.
fn resume(open_places: &mut Open, place: Place)
    ensures { untimed open_places.new ≡ untimed open_places.old }
{
    if let Some(token) = open_places.token_of(place) {
        let _ = open_places.hurry(token, Urgency::Ordinary);
    }
}

// These boxes are urgent.
fn hurry_unsolved(open_places: &mut Open, unsolved: &[Name])
    ensures urgent { AreUrgentBoxes unsolved.now open_places.new }
    ensures places { untimed open_places.new ≡ untimed open_places.old }
{
    for name in unsolved {
        make_urgent(open_places, Place::Box(*name));
    }
}

// These places come no later than they are to, by what is seen of them, where this box was told something.
fn hurry_opened(open_places: &mut Open, table: &Table, places: &[Placed], told: Option<Name>)
    ensures urgent { AreUrgent table.now told (places_of places.now) open_places.new }
    ensures still { StayUrgent open_places.old open_places.new }
    ensures places { untimed open_places.new ≡ untimed open_places.old }
{
    for placed in places {
        hurry_place(open_places, table, placed.place(), told);
    }
}

// A place comes no later than it is to, by what is seen of it, where this box was told something.
fn hurry_place(open_places: &mut Open, table: &Table, place: Place, told: Option<Name>)
    ensures now { may_fail table.now told place ≡ true → IsUrgentAt open_places.new place }
    ensures still { StayUrgent open_places.old open_places.new }
    ensures places { untimed open_places.new ≡ untimed open_places.old }
{
    match place {
        Place::Box(name) => hurry_box(open_places, table, name, told),
        Place::Goal(goal) => hurry_goal(open_places, table, goal),
    }
}

// A box is urgent that has a goal by which it fails, or may clash with what another one was told.
fn hurry_box(open_places: &mut Open, table: &Table, name: Name, told: Option<Name>)
    ensures now { may_fail table.now told (Place.Box name) ≡ true → IsUrgentAt open_places.new (Place.Box name) }
    ensures still { StayUrgent open_places.old open_places.new }
    ensures places { untimed open_places.new ≡ untimed open_places.old }
{
    if is_elsewhere(told, name) || is_failing(table, name) {
        make_urgent(open_places, Place::Box(name));
    }
}

// Whether another box than this was told something.
fn is_elsewhere(told: Option<Name>, name: Name) -> bool
    ensures { result ≡ is_elsewhere told name }
{
    match told {
        Some(home) => home != name,
        None => false,
    }
}

/// Whether a box has a goal by which it fails.
pub(crate) fn is_failing(table: &Table, name: Name) -> bool
    ensures failing { urgency_seen (sight_in table.now (Place.Box name)) ≡ Urgency.Urgent → result ≡ true }
    ensures only { result ≡ true → urgency_seen (sight_in table.now (Place.Box name)) ≡ Urgency.Urgent }
{
    match table.sight_of(Place::Box(name)) {
        Some((_, Sight::Box { failing: Some(_) })) => true,
        _ => false,
    }
}

// A choice isn't late, if memory suffices, once an alternative is solved, or all are of one that collects.
fn hurry_goal(open_places: &mut Open, table: &Table, goal: Name)
    ensures still { StayUrgent open_places.old open_places.new }
    ensures places { untimed open_places.new ≡ untimed open_places.old }
{
    let Some(token) = open_places.token_of(Place::Goal(goal)) else {
        return;
    };
    if open_places.urgency_of(token) == Some(Urgency::Late) && may_go_on(table, goal) {
        let _ = open_places.hurry(token, Urgency::Ordinary);
    }
}

// Whether a rule may apply to a choice, by which of its alternatives are solved.
fn may_go_on(table: &Table, goal: Name) -> bool {
    let alternatives = table.alternatives_of(goal);
    if collects(table, goal) {
        are_solved(table, alternatives)
    } else {
        has_solved(table, alternatives)
    }
}

// Whether none of these boxes has goals. Where solutions come one after another, the last is solved last.
fn are_solved(table: &Table, boxes: &[Name]) -> bool {
    boxes.iter().rev().all(|name| table.is_solved(*name))
}

// Whether one of these boxes has no goals.
fn has_solved(table: &Table, boxes: &[Name]) -> bool {
    boxes.iter().any(|name| table.is_solved(*name))
}

// A place is urgent, if it is open.
fn make_urgent(open_places: &mut Open, place: Place)
    ensures now { IsUrgentAt open_places.new place }
    ensures still { StayUrgent open_places.old open_places.new }
    ensures places { untimed open_places.new ≡ untimed open_places.old }
{
    if let Some(token) = open_places.token_of(place) {
        open_places.make_urgent(token);
    }
}
