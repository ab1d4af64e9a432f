//! The state of a run.

ghost use Rattle.std.specs.Prelude.{◌≡◌, ◌+◌, ◌∷◌, ◌++◌, IfOk, IfErr, OnOk, OnErr, IfSome, IfNone, Some, [], length, true};
ghost use Rattle.box_tree.specs.Tables.{table_of, goals_in, is_empty, shown_in, shown_trees_of, HasVariables, HasShownVariables};
ghost use Rattle.box_tree.specs.Views.{is_there, IsUnseen, all_places};
ghost use Rattle.box_tree.specs.Paths.{known_in, alternatives_seen};
ghost use Rattle.box_tree.specs.Insides.{AreBoxesInside, IsInsideOf};
ghost use Rattle.akl_terms.specs.declared.name.Place.{Place};
ghost use Rattle.step_commit.specs.Solving.{solved_over, solved_copies};
ghost use Rattle.step_commit.specs.Cores.{IsCore, MayCommit, IsFresh, Commits, IsRefused, IsFirstStale, is_within, solved_in};
ghost use Rattle.step_commit.specs.declared.commit.CommitError.TheVariants as variants;

use crate::commit::CommitError;
use akl_model::{Item, Label, Receipt};
use akl_terms::{Name, Place, Program, Query, ShownTerm};
use box_tree::{InnerBox, Inside, LookError, Plan, Step, Table, View};
use local_store::Part;
use std::alloc::{AllocError, Global};
use std::marker::Model;

// The journal has room for so many labels at once, where the budget has: so it isn't moved again and again while it is short.
const ROOM: u64 = 4096;

/// The state of a run: a table, with the journal whose replay it unfolds to. Its program, its query, the number of its
/// workers and its budget never change.
#[derive(Drop)]
pub struct Core {
    table: Table,
    journal: Vec<Label>,
    workers: u32,
    budget: u64,
}

impl Model for Core {
    ghost use Rattle.step_commit.specs.Cores.{CoreValue, IsCore};

    ghost Value = { CoreValue };

    ghost view = { λ c. record { table = c.table; journal = c.journal.items; workers = c.workers; budget = c.budget } };

    ghost invariant = { λ c. IsCore (record { table = c.table; journal = c.journal.items; workers = c.workers; budget = c.budget }) };
}

impl Core {
    /// The state of a query before its first label.
    pub fn new(
        alloc: Global,
        program: &Program,
        query: &Query,
        first_variable: u32,
        workers: u32,
        budget: u64,
    ) -> Result<Core, AllocError>
        requires variables { HasVariables program.now query.now first_variable }
        requires shown { HasShownVariables query.now }
        ensures program { IfOk result (λ c. c.table.program ≡ program.now) }
        ensures query { IfOk result (λ c. c.table.query ≡ query.now) }
        ensures journal { IfOk result (λ c. c.journal ≡ []) }
        ensures workers { IfOk result (λ c. c.workers ≡ workers) }
        ensures budget { IfOk result (λ c. c.budget ≡ budget) }
    {
        let journal = Vec::with_capacity(alloc, budget.min(ROOM) as usize)?;
        let table = Table::start(alloc, program, query, first_variable, workers)?;
        Ok(Core {
            table,
            journal,
            workers,
            budget,
        })
    }

    /// How many labels the journal has.
    pub fn journal_len(&self) -> u64
        ensures { result ≡ length self.now.journal }
    {
        self.journal.len() as u64
    }

    /// For how many labels the budget has room still.
    pub fn left(&self) -> u64
        ensures { length self.now.journal + result ≡ self.now.budget }
    {
        self.budget - self.journal.len() as u64
    }

    /// The table.
    pub fn table(&self) -> &Table
        ensures table { result.now ≡ self.now.table }
        ensures core { IsCore self.now }
    {
        &self.table
    }

    /// The labels that were committed, in order.
    pub fn journal(&self) -> &[Label]
        ensures { result.now ≡ self.now.journal }
    {
        &self.journal
    }

    /// What a worker sees of a place. `Gone` comes exactly where the place isn't in the configuration.
    pub fn look(&self, alloc: Global, place: Place, worker: u32) -> Result<View, LookError>
        ensures table { IfOk result (λ v. v.table ≡ self.now.table) }
        ensures journal { IfOk result (λ v. v.journal ≡ self.now.journal) }
        ensures place { IfOk result (λ v. v.place ≡ place) }
        ensures worker { IfOk result (λ v. v.worker ≡ worker) }
        ensures known { IfOk result (λ v. v.known ≡ known_in (table_of self.now.table) 0 v.path) }
        ensures alternatives { IfOk result (λ v. v.alternatives ≡ alternatives_seen self.now.table v.path place) }
        ensures there { IfOk result (λ _. is_there (table_of self.now.table) place ≡ true) }
        ensures unseen { IfErr result (IsUnseen (table_of self.now.table) place) }
    {
        self.table.look(alloc, &self.journal, place, worker)
    }

    /// All that stands in a box and inside it, as a worker sees it.
    pub fn look_inside(&self, alloc: Global, name: Name, worker: u32) -> Result<Inside, AllocError>
        requires { is_there (table_of self.now.table) (Place.Box name) ≡ true }
        ensures { IfOk result (IsInsideOf self.now.table self.now.journal name worker) }
    {
        self.table.look_inside(alloc, &self.journal, name, worker)
    }

    /// A box and all boxes inside it, each once. An `Err` is want of memory.
    pub fn boxes_inside(&self, alloc: Global, name: Name) -> Result<Vec<InnerBox>, AllocError>
        ensures { IfOk result (λ boxes. AreBoxesInside self.now.table name boxes.items) }
    {
        self.table.boxes_inside(alloc, name)
    }

    /// All boxes and goals: boxes first, each in increasing order of names.
    pub fn places(&self, alloc: Global) -> Result<Vec<Place>, AllocError>
        ensures { IfOk result (λ places. places.items ≡ all_places self.now.table) }
    {
        self.table.places(alloc)
    }

    /// The root boxes in order.
    pub fn roots(&self) -> &[Name]
        ensures roots { result.now ≡ self.now.table.roots }
        ensures core { IsCore self.now }
    {
        self.table.roots()
    }

    /// Whether a box has no goals; so it is of one that isn't there.
    pub fn is_solved(&self, name: Name) -> bool
        ensures { result ≡ is_empty (goals_in ((table_of self.now.table).box_of name)) }
    {
        self.table.is_solved(name)
    }

    /// What an answer shows of a root box; nothing of a box that isn't there.
    pub fn shown_of(&self, name: Name) -> &[ShownTerm]
        ensures { shown_trees_of self.now.table result.now ≡ shown_in ((table_of self.now.table).box_of name) }
    {
        self.table.shown_of(name)
    }

    /// The first of these items that a label behind the first ones, so many as are given, has changed, with its stamp.
    pub fn stale(&self, reads: &[Item], seen: u64) -> Option<(Item, Option<u64>)>
        ensures { IsFirstStale self.now.table reads.now seen result }
    {
        first_stale(&self.table, reads, seen)
    }

    /// Why a plan can't be committed, whatever memory there is: all labels of the budget are made, or the budget has no
    /// room for all labels of the plan, or the plan is stale. `None` exactly where none of these is so.
    pub fn refusal(&self, plan: &Plan) -> Option<CommitError>
        requires { MayCommit self.now plan.now }
        ensures refused { IfSome result (IsRefused self.now plan.now) }
        ensures fresh { IfNone result (IsFresh self.now plan.now) }
        ensures known { (error : _) → result ≡ Some (variants.Memory error) → ⊥ }
    {
        let left = self.left();
        if left == 0 {
            return Some(CommitError::Spent {
                budget: self.budget,
            });
        }
        if plan.more().len() as u64 >= left {
            return Some(CommitError::Short { left });
        }
        // A plan that has seen all labels can't be stale.
        if self.journal.len() as u64 == plan.seen() {
            return None;
        }
        let (item, stamp) = self.stale(plan.reads(), plan.seen())?;
        Some(CommitError::Stale { item, stamp })
    }

    // After how many labels the stores of a plan's step were solved, where it is known. A plan that has seen all labels says it of
    // the table as it is.
    fn solved_at(&self, plan: &Plan) -> Option<u64>
        ensures { result ≡ solved_in self.now plan.now }
    {
        let all = self.journal.len() as u64;
        if all == plan.seen() {
            return Some(all);
        }
        let seen = plan.seen();
        let place = plan.label().place;
        match plan.step() {
            Step::Tell { part, .. } | Step::Join { part, .. } => {
                solved_over(&self.table, place, part, seen)
            }
            Step::Split { .. } => solved_copies(&self.table, all, place),
            Step::Fork { .. } | Step::Fail | Step::Cut | Step::Refute | Step::Confirm => Some(seen),
        }
    }

    /// Appends the labels of a plan that isn't refused, and makes their step. The receipt is that of the first one; those
    /// behind it come one after another, and were planned by the same labels. An `Err` leaves the core as it was.
    pub fn append(&mut self, alloc: Global, plan: Plan) -> Result<Receipt, AllocError>
        requires may { MayCommit self.old plan }
        requires fresh { IsFresh self.old plan }
        ensures committed { IfOk result (Commits self.old plan self.new) }
        ensures unchanged { IfErr result (λ _. self.new ≡ self.old) }
    {
        let before = self.journal.len();
        let seen = plan.seen();
        let label = plan.label();
        let others = plan.more().len() as u64;
        let names = plan.names();
        let at = self.solved_at(&plan);
        push_labels(&mut self.journal, label, plan.more())?;
        let (step, binds) = plan.into_parts();
        let binds = binds.as_slice();
        if let Err(error) = self
            .table
            .apply(alloc, label, others, names, step, binds, at)
        {
            self.journal.truncate(before);
            return Err(error);
        }
        Ok(Receipt {
            at: before as u64 + 1,
            seen,
            label,
        })
    }

    /// The journal.
    pub fn into_journal(self) -> Vec<Label>
        ensures { result.items ≡ self.journal }
    {
        self.journal
    }
}

// After how many labels the store of a goal's box is solved with what is added to it, where it is known.
fn solved_over(table: &Table, place: Place, part: &Part, seen: u64) -> Option<u64>
    ensures { result ≡ solved_over (table_of table.now) place part.now.bindings.items seen }
{
    match place {
        Place::Goal(goal) => table.solved_with(goal, part, seen),
        Place::Box(_) => None,
    }
}

// After how many labels the copies of a box are solved, where it is known.
fn solved_copies(table: &Table, labels: u64, place: Place) -> Option<u64>
    ensures { result ≡ solved_copies (table_of table.now) labels place }
{
    match place {
        Place::Box(name) if table.holder_of(name).is_none() => Some(labels),
        Place::Box(_) | Place::Goal(_) => None,
    }
}

// A label and those behind it come to the end of a journal. An `Err` leaves it as it was.
fn push_labels(journal: &mut Vec<Label>, label: Label, more: &[Label]) -> Result<(), AllocError>
    ensures pushed { OnOk result (journal.new.items ≡ journal.old.items ++ label ∷ more.now) }
    ensures unchanged { OnErr result (journal.new.items ≡ journal.old.items) }
{
    journal.push(label)?;
    if let Err(error) = journal.extend_from_slice(more) {
        let _ = journal.pop();
        return Err(error);
    }
    Ok(())
}

// The first item that a label after the first ones, so many as are given, has changed, with its stamp.
fn first_stale(table: &Table, reads: &[Item], seen: u64) -> Option<(Item, Option<u64>)>
    ensures { IsFirstStale table.now reads.now seen result }
{
    for item in reads {
        let stamp = table.stamp(*item);
        if !is_within(stamp, seen) {
            return Some((*item, stamp));
        }
    }
    None
}

// Whether the item is there, and was last changed by one of the first labels, so many as are given.
fn is_within(stamp: Option<u64>, seen: u64) -> bool
    ensures { result ≡ is_within stamp seen }
{
    match stamp {
        Some(number) => number <= seen,
        None => false,
    }
}
