//! The alternatives of a choice join the box in which the choice stands.

ghost use Rattle.std.specs.Prelude.{◌≡◌, ◌+◌, ◌<◌, Some, map, IfOk, IfErr, OnOk, OnErr};
ghost use Rattle.std.specs.Option.{option_or};
ghost use Rattle.akl_terms.specs.declared.name.Place.{Place};
ghost use Rattle.akl_model.specs.Config.{with_names};
ghost use Rattle.local_store.specs.Parts.{with_part};
ghost use Rattle.table_laws.specs.Writes.{set, changed_box, unset, first_fail, IsFresh};
ghost use Rattle.table_laws.specs.Walks.{alternatives_of};
ghost use Rattle.table_laws.specs.Calls.{after_call};
ghost use Rattle.box_tree.specs.Tables.{table_of, goals_in, store_at};
ghost use Rattle.box_tree.specs.Edits.{SetsBoxes, SetsRows, Becomes, AreNew, less_names, joins_row, named_atoms, atoms_with};
ghost use Rattle.box_tree.specs.Drops.{IsOfRun};

use crate::entries::BoxEntry;
use crate::forking::first_fail;
use crate::named::push_names;
use crate::short::ShortList;
use crate::starting::after_others;
use crate::table::Table;
use crate::telling::Told;
use akl_terms::{Goal, Name};
use std::alloc::{AllocError, Global};
use std::collections::BTreeSet;

// The names of goals.
fn goal_names(alloc: Global, goals: &[(Name, Goal)]) -> Result<ShortList<Name>, AllocError>
    ensures { IfOk result (λ names. names.items ≡ map (λ x. x.0) goals.now) }
{
    let mut names = ShortList::new();
    push_names(alloc, goals, &mut names)?;
    Ok(names)
}

// Names go from a set. It takes no memory.
fn drop_names(set: &mut BTreeSet<Name>, names: &[Name])
    ensures { set.new.keys ≡ less_names names.now set.old.keys }
{
    for name in names {
        set.remove(name);
    }
}

// Names come to a set that has none of them. An `Err` leaves it as it was.
fn add_names(set: &mut BTreeSet<Name>, names: &[Name]) -> Result<(), AllocError>
    requires { AreNew names.now set.old.keys }
    ensures added { OnOk result (set.new.keys ≡ with_names names.now set.old.keys) }
    ensures unchanged { OnErr result (set.new ≡ set.old) }
{
    let mut at = names.len();
    while at > 0 {
        let Ok(_) = set.insert(names[at - 1]) else {
            drop_names(set, &names[at..]);
            return Err(AllocError);
        };
        at -= 1;
    }
    Ok(())
}

/// The numbers of labels by which goals join a box: of the one by which they do, of the last one that tells the box an
/// equation, and of the last of all.
#[derive(Clone, Copy)]
pub(crate) struct JoinNumbers {
    pub promoted: u64,
    pub told: u64,
    pub ended: u64,
}

/// These numbers, where so many labels come with the first one, so many behind the one by which goals join, and so many of
/// these up to the last one that tells. An `Err` comes where more come behind than there are, and where one would pass its word.
pub(crate) fn join_numbers(
    steps: u64,
    others: u64,
    told: u64,
    behind: u64,
) -> Result<JoinNumbers, AllocError>
    ensures later { IfOk result (λ numbers. steps < numbers.promoted) }
    ensures number { IfOk result (λ numbers. numbers.promoted + behind ≡ others + steps + 1) }
    ensures told { IfOk result (λ numbers. numbers.told ≡ numbers.promoted + told) }
    ensures ended { IfOk result (λ numbers. numbers.ended ≡ numbers.promoted + behind) }
{
    let before = others.checked_sub(behind).ok_or(AllocError)?;
    let promoted = after_others(steps, before)?;
    Ok(JoinNumbers {
        promoted,
        told: promoted.checked_add(told).ok_or(AllocError)?,
        ended: promoted.checked_add(behind).ok_or(AllocError)?,
    })
}

impl BoxEntry {
    // The box gets goals that it doesn't have, by one of which it may fail, and something is added to its store. An `Err` leaves
    // the entry as it was.
    fn join(&mut self, names: &[Name], failing: Option<Name>, told: Told) -> Result<(), AllocError>
        requires { AreNew names.now self.old.goals.keys }
        ensures joined { OnOk result (self.new ≡ record self.old { store = with_part self.old.store told.part; changed = told.number; solved_at = told.solved_at; goals = self.new.goals; failing = option_or self.old.failing failing }) }
        ensures named { OnOk result (self.new.goals.keys ≡ with_names names.now self.old.goals.keys) }
        ensures unchanged { IfErr result (λ _. self.new ≡ self.old) }
    {
        add_names(&mut self.goals, names)?;
        let Ok(()) = self.tell(told) else {
            drop_names(&mut self.goals, names);
            return Err(AllocError);
        };
        self.failing = self.failing.or(failing);
        Ok(())
    }
}

impl Table {
    // The choice's box gets goals that it doesn't have, by one of which it may fail, and something is added to its store; the
    // choice goes from it by the label of this number. An `Err` leaves the table as it was.
    fn join_box(
        &mut self,
        home: Name,
        goal: Name,
        names: &[Name],
        failing: Option<Name>,
        told: Told,
        number: u64,
    ) -> Result<(), AllocError>
        requires { AreNew names.now (goals_in ((table_of self.old).box_of home)) }
        ensures joined { OnOk result (SetsBoxes self.old self.new (changed_box (Some home) (joins_row goal names.now failing told number) (table_of self.old).box_of)) }
        ensures unchanged { IfErr result (λ _. self.new ≡ self.old) }
    {
        let Some(entry) = self.boxes.get_mut(home) else {
            return Ok(());
        };
        let Ok(()) = entry.join(names, failing, told) else {
            return Err(AllocError);
        };
        entry.goals.remove(&goal);
        entry.goals_changed = number;
        Ok(())
    }

    // The same where the entries of the goals come too, by the label by which they join. An `Err` leaves the table as it was.
    fn join_goals(
        &mut self,
        alloc: Global,
        home: Name,
        goal: Name,
        goals: Vec<(Name, Goal)>,
        told: Told,
        numbers: JoinNumbers,
    ) -> Result<(), AllocError>
        requires run { IsOfRun self.old }
        requires fresh { IsFresh (table_of self.old) (map (λ x. x.0) (named_atoms self.old.program.templates.nodes goals.items)) }
        ensures joined { OnOk result (SetsRows self.old self.new (changed_box (Some home) (joins_row goal (map (λ x. x.0) goals.items) (first_fail (named_atoms self.old.program.templates.nodes goals.items)) told numbers.ended) (table_of self.old).box_of) (atoms_with home numbers.promoted (named_atoms self.old.program.templates.nodes goals.items) (table_of self.old))) }
        ensures unchanged { IfErr result (λ _. self.new ≡ self.old) }
    {
        let names = goal_names(alloc, goals.as_slice())?;
        let names = names.as_slice();
        let failing = first_fail(goals.as_slice());
        let Ok(()) = self.put_goals(home, goals, numbers.promoted) else {
            self.drop_entries(names);
            return Err(AllocError);
        };
        let Ok(()) = self.join_box(home, goal, names, failing, told, numbers.ended) else {
            self.drop_entries(names);
            return Err(AllocError);
        };
        Ok(())
    }

    // Boxes' entries go.
    fn drop_alternatives(&mut self, names: &[Name])
        ensures { SetsBoxes self.old self.new (unset names.now (table_of self.old).box_of) }
    {
        for name in names {
            self.drop_alternative(*name);
        }
    }

    // A box's entry goes.
    fn drop_alternative(&mut self, name: Name)
        ensures { SetsBoxes self.old self.new (set name None (table_of self.old).box_of) }
    {
        self.boxes.remove(name);
    }

    // The alternatives of a goal.
    fn names_of(&self, alloc: Global, goal: Name) -> Result<Vec<Name>, AllocError>
        ensures { IfOk result (λ names. names.items ≡ alternatives_of ((table_of self.now).goal_of goal)) }
    {
        Vec::from_slice(alloc, self.alternatives_of(goal))
    }

    /// All alternatives of a choice, which are solved, join the box in which the choice stands. Something is added to its store,
    /// and it gets new goals, for which a worker draws so many names, by labels of these numbers: of a call, whose goal is an
    /// atom still, there are several. An `Err` leaves the table as it was.
    pub(crate) fn join(
        &mut self,
        alloc: Global,
        goal: Name,
        told: Told,
        goals: Vec<(Name, Goal)>,
        numbers: JoinNumbers,
        worker: u32,
        count: u64,
    ) -> Result<(), AllocError>
        requires run { IsOfRun self.old }
        requires fresh { IsFresh (table_of self.old) (map (λ x. x.0) (named_atoms self.old.program.templates.nodes goals.items)) }
        ensures made { OnOk result (Becomes self.old self.new (after_call goal (with_part (store_at (table_of self.old) (Place.Goal goal)) told.part) told.solved_at (named_atoms self.old.program.templates.nodes goals.items) worker count numbers.promoted told.number numbers.ended (table_of self.old))) }
        ensures unchanged { IfErr result (λ _. self.new ≡ self.old) }
    {
        let Some(home) = self.home_of(goal) else {
            return Err(AllocError);
        };
        let alternatives = self.names_of(alloc, goal)?;
        let next = self.raised(alloc, worker, count)?;
        self.join_goals(alloc, home, goal, goals, told, numbers)?;
        let _ = self.drop_goal(goal);
        self.drop_alternatives(alternatives.as_slice());
        self.raise(worker, next);
        self.steps = numbers.ended;
        Ok(())
    }
}
