//! A box becomes two: in the first a choice keeps an alternative alone, and the second is the copy of the box without it.

ghost use Rattle.std.specs.Prelude.{◌≡◌, ◌+◌, ◌∷◌, ◌++◌, List, [], map, Option, option_map, false, IfOk, IfErr, OnOk, OnErr};
ghost use Rattle.akl_terms.specs.declared.term.Node.{Node};
ghost use Rattle.akl_model.specs.Config.{or_else};
ghost use Rattle.akl_model.specs.Ordered.{IsIncreasing};
ghost use Rattle.table_laws.specs.Writes.{name_after, names_copied, IsFresh, Splits};
ghost use Rattle.box_tree.specs.Tables.{table_of, box_copy, AreCopiesInOrder};
ghost use Rattle.box_tree.specs.Edits.{SetsRows, AddsOnly};
ghost use Rattle.box_tree.specs.Drops.{IsOfRun};
ghost use Rattle.box_tree.specs.Splits.{copies_with, copied_goals_with, IsHolderOf, Holds, is_choice};

use crate::entries::{BoxEntry, HeldOp};
use crate::named::{goal_set, push_names};
use crate::short::ShortList;
use crate::starting::after;
use crate::step::BoxCopy;
use crate::table::Table;
use crate::telling::solved_when;
use akl_terms::Name;
use std::alloc::{AllocError, Global};

/// What holds a box, with the names that it has once a copy stands after the box.
#[derive(Drop)]
pub(crate) enum Holder {
    Roots(Vec<Name>),
    Choice {
        goal: Name,
        op: HeldOp,
        names: Vec<Name>,
    },
}

// Names with a copy's name after that of its box.
fn name_after(
    alloc: Global,
    names: &[Name],
    name: Name,
    copy: Name,
) -> Result<Vec<Name>, AllocError>
    ensures { IfOk result (λ v. v.items ≡ name_after name copy names.now) }
{
    let mut all = Vec::from_slice(alloc, names)?;
    let mut at = 0;
    while at < names.len() {
        if name == names[at] {
            all.insert(at + 1, copy)?;
            return Ok(all);
        }
        at += 1;
    }
    Ok(all)
}

// What holds a copy: the choice that does, and else what holds the box that is split.
fn holder_or(own: Option<Name>, holder: Option<Name>) -> Option<Name>
    ensures { result ≡ or_else own holder }
{
    match own {
        Some(goal) => Some(goal),
        None => holder,
    }
}

// How many labels there are once a copy is made of a store that was solved when there were so many.
fn one_later(at: Option<u64>) -> Result<Option<u64>, AllocError>
    ensures { IfOk result (λ later. later ≡ option_map (λ k. k + 1) at) }
{
    match at {
        Some(labels) => {
            let later = after(labels)?;
            Ok(Some(later))
        }
        None => Ok(None),
    }
}

// The names of copies and of their goals.
fn copied_names(alloc: Global, copies: &[BoxCopy]) -> Result<ShortList<Name>, AllocError>
    ensures { IfOk result (λ names. (nodes : List Node) → names.items ≡ names_copied (map (box_copy nodes) copies.now)) }
{
    let mut names = ShortList::new();
    for copy in copies {
        names.push(alloc, copy.name)?;
        push_names(alloc, copy.goals.as_slice(), &mut names)?;
    }
    Ok(names)
}

impl Table {
    // A copy comes, with its goals.
    fn put_copy(
        &mut self,
        alloc: Global,
        holder: Option<Name>,
        copy: BoxCopy,
        at: Option<u64>,
        number: u64,
    ) -> Result<(), AllocError>
        requires { IsIncreasing (map (λ x. x.0) copy.goals.items) }
        ensures put { OnOk result (SetsRows self.old self.new (copies_with holder at number (box_copy self.old.program.templates.nodes copy ∷ []) (table_of self.old)) (copied_goals_with number (box_copy self.old.program.templates.nodes copy ∷ []) (table_of self.old))) }
        ensures only { AddsOnly self.old self.new (copy.name ∷ map (λ x. x.0) copy.goals.items) }
    {
        let names = goal_set(alloc, copy.goals.as_slice())?;
        let BoxCopy {
            name,
            holder: own,
            store,
            solved,
            goals,
            body,
            shown,
            collected,
        } = copy;
        let entry = BoxEntry {
            holder: holder_or(own, holder),
            store,
            changed: number,
            solved_at: solved_when(at, solved),
            goals: names,
            goals_changed: number,
            failing: None,
            body,
            shown,
            collected,
        };
        self.put_entry(name, entry, goals, number)
    }

    // Copies come, with their goals.
    fn put_copies(
        &mut self,
        alloc: Global,
        holder: Option<Name>,
        copies: Vec<BoxCopy>,
        at: Option<u64>,
        number: u64,
    ) -> Result<(), AllocError>
        requires { AreCopiesInOrder (map (box_copy self.old.program.templates.nodes) copies.items) }
        ensures put { OnOk result (SetsRows self.old self.new (copies_with holder at number (map (box_copy self.old.program.templates.nodes) copies.items) (table_of self.old)) (copied_goals_with number (map (box_copy self.old.program.templates.nodes) copies.items) (table_of self.old))) }
        ensures only { AddsOnly self.old self.new (names_copied (map (box_copy self.old.program.templates.nodes) copies.items)) }
    {
        let mut left = copies;
        while let Some(copy) = left.pop() {
            self.put_copy(alloc, holder, copy, at, number)?;
        }
        Ok(())
    }

    // Copies come, with their goals. An `Err` leaves the table as it was.
    fn add_copies(
        &mut self,
        alloc: Global,
        holder: Option<Name>,
        copies: Vec<BoxCopy>,
        at: Option<u64>,
        number: u64,
    ) -> Result<(), AllocError>
        requires fresh { IsFresh (table_of self.old) (names_copied (map (box_copy self.old.program.templates.nodes) copies.items)) }
        requires ordered { AreCopiesInOrder (map (box_copy self.old.program.templates.nodes) copies.items) }
        ensures put { OnOk result (SetsRows self.old self.new (copies_with holder at number (map (box_copy self.old.program.templates.nodes) copies.items) (table_of self.old)) (copied_goals_with number (map (box_copy self.old.program.templates.nodes) copies.items) (table_of self.old))) }
        ensures unchanged { OnErr result (self.new ≡ self.old) }
    {
        let drawn = copied_names(alloc, copies.as_slice())?;
        let Ok(()) = self.put_copies(alloc, holder, copies, at, number) else {
            self.drop_entries(drawn.as_slice());
            return Err(AllocError);
        };
        Ok(())
    }

    // What holds a box, with the names that it has once a copy stands after the box. An `Err` comes also where this choice
    // holds it.
    fn held_beside(
        &self,
        alloc: Global,
        name: Name,
        copy: Name,
        choice: Name,
    ) -> Result<Holder, AllocError>
        ensures held { IfOk result (IsHolderOf self.now name copy) }
        ensures apart { IfOk result (λ holder. is_choice holder choice ≡ false) }
    {
        let Some(goal) = self.holder_of(name) else {
            let names = name_after(alloc, self.roots(), name, copy)?;
            return Ok(Holder::Roots(names));
        };
        if goal == choice {
            return Err(AllocError);
        }
        let op = self.op_of(goal)?;
        let names = name_after(alloc, self.alternatives_of(goal), name, copy)?;
        Ok(Holder::Choice { goal, op, names })
    }

    // What holds a box gets these names. It takes no memory.
    fn hold(&mut self, holder: Holder, number: u64)
        ensures { Holds self.old self.new number holder }
    {
        match holder {
            Holder::Roots(names) => {
                self.roots = names;
                self.roots_changed = number;
            }
            Holder::Choice { goal, op, names } => self.make_choice(goal, op, names, number),
        }
    }

    /// A box becomes two at an alternative: the choice that holds this keeps it alone, and the copies come, for which a
    /// worker draws so many names. An `Err` leaves the table as it was; it comes for want of memory, where a count would
    /// pass its word, and where no choice holds the alternative or the same one holds the box.
    pub(crate) fn split(
        &mut self,
        alloc: Global,
        name: Name,
        alternative: Name,
        copy: Name,
        copies: Vec<BoxCopy>,
        at: Option<u64>,
        number: u64,
        worker: u32,
        count: u64,
    ) -> Result<(), AllocError>
        requires number { number ≡ self.old.steps + 1 }
        requires run { IsOfRun self.old }
        requires fresh { IsFresh (table_of self.old) (names_copied (map (box_copy self.old.program.templates.nodes) copies.items)) }
        requires ordered { AreCopiesInOrder (map (box_copy self.old.program.templates.nodes) copies.items) }
        ensures program { OnOk result (self.new.program ≡ self.old.program) }
        ensures query { OnOk result (self.new.query ≡ self.old.query) }
        ensures marks { OnOk result (self.new.marks ≡ self.old.marks) }
        ensures splits { OnOk result (Splits (table_of self.old) (table_of self.new) name alternative copy (map (box_copy self.old.program.templates.nodes) copies.items) at worker count) }
        ensures unchanged { IfErr result (λ _. self.new ≡ self.old) }
    {
        let Some(choice) = self.holder_of(alternative) else {
            return Err(AllocError);
        };
        let op = self.op_of(choice)?;
        let later = one_later(at)?;
        let next = self.raised(alloc, worker, count)?;
        let held = self.held_beside(alloc, name, copy, choice)?;
        let (alone, gone) = self.kept_and_gone(alloc, choice, HeldOp::Commit, alternative)?;
        let holder = self.holder_of(name);
        self.add_copies(alloc, holder, copies, later, number)?;
        self.make_choice(choice, op, alone, number);
        self.hold(held, number);
        self.drop_boxes(gone.as_slice());
        self.raise(worker, next);
        self.steps = number;
        Ok(())
    }
}
