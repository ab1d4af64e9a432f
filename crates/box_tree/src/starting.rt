//! The table of a query's one box.

ghost use Rattle.std.specs.Prelude.{◌≡◌, ◌+◌, ◌∷◌, [], map, IfOk};
ghost use Rattle.local_store.specs.Stored.{nothing, with_frame};
ghost use Rattle.akl_model.specs.Ordered.{IsIncreasing};
ghost use Rattle.akl_model.specs.Instances.{shown_of};
ghost use Rattle.table_laws.specs.Writes.{IsTable};
ghost use Rattle.table_laws.specs.Laws.{started};
ghost use Rattle.box_tree.specs.StoreMarks.{stores_of};
ghost use Rattle.box_tree.specs.Tables.{table_of, mark_after, shown_tree, HasVariables, HasShownVariables};
ghost use Rattle.box_tree.specs.Starts.{query_frame, goals_from, IsFirstEntry, IsEmpty};

use crate::entries::BoxEntry;
use crate::forking::first_fail;
use crate::named::goal_set;
use crate::store_marks::TableMarks;
use crate::table::Table;
use akl_terms::{Goal, Name, Program, Query, ShownTerm, Term};
use local_store::{Shared, Store};
use name_map::BoxedMap;
use std::alloc::{AllocError, Global};
use std::snapshot::Snapshot;

/// The box of a query.
const ROOT: Name = Name {
    worker: 0,
    number: 0,
};

/// The frame of a query's variables.
const FRAME: Name = Name {
    worker: 0,
    number: 1,
};

// The query's goals, under names from 2 on.
fn first_goals(alloc: Global, query: &Query) -> Result<Vec<(Name, Goal)>, AllocError>
    ensures { IfOk result (λ goals. goals.items ≡ goals_from 2 query.now.goals) }
{
    let mut goals = Vec::new(alloc);
    let mut number = 2;
    for code in query.goals.as_slice() {
        let name = Name { worker: 0, number };
        let goal = Goal {
            code: *code,
            frame: FRAME,
        };
        goals.push((name, goal))?;
        number = after(number)?;
    }
    Ok(goals)
}

/// The number after this one. An `Err` comes where it would pass its word.
pub(crate) fn after(number: u64) -> Result<u64, AllocError>
    ensures { IfOk result (λ next. next ≡ 1 + number) }
{
    number.checked_add(1).ok_or(AllocError)
}

// The number of the last of some labels: so many others come before it.
pub(crate) fn after_others(number: u64, others: u64) -> Result<u64, AllocError>
    ensures { IfOk result (λ last. last ≡ others + number + 1) }
{
    after(others.checked_add(number).ok_or(AllocError)?)
}

// What the query's box shows, as terms.
fn shown_terms(
    alloc: Global,
    program: &Program,
    query: &Query,
    first_variable: u32,
) -> Result<Vec<ShownTerm>, AllocError>
    requires variables { HasVariables program.now query.now first_variable }
    requires shown { HasShownVariables query.now }
    ensures { IfOk result (λ terms. map (shown_tree program.now.templates.nodes) terms.items ≡ map (shown_of query_frame) query.now.shown) }
{
    let _ = program;
    let mut terms = Vec::new(alloc);
    for shown in query.shown.as_slice() {
        let name = shown.name.duplicate()?;
        let node = first_variable + shown.index;
        let term = Term::Mol { node, frame: FRAME };
        terms.push(ShownTerm { name, term })?;
    }
    Ok(terms)
}

// The store of the query's box.
fn first_store(alloc: Global) -> Result<Shared<Store>, AllocError>
    ensures { IfOk result (λ store. store ≡ with_frame nothing query_frame) }
{
    let mut store = Store::new(alloc);
    store.add_frame(FRAME)?;
    Shared::new(alloc, store)
}

// The entry of the query's box.
fn first_entry(
    alloc: Global,
    goals: &[(Name, Goal)],
    shown: Vec<ShownTerm>,
) -> Result<BoxEntry, AllocError>
    requires { IsIncreasing (map (λ x. x.0) goals.now) }
    ensures { IfOk result (IsFirstEntry goals.now shown.items) }
{
    let store = first_store(alloc)?;
    let names = goal_set(alloc, goals)?;
    Ok(BoxEntry {
        holder: None,
        store,
        changed: 0,
        solved_at: Some(0),
        goals: names,
        goals_changed: 0,
        failing: first_fail(goals),
        body: Vec::new(alloc),
        shown,
        collected: None,
    })
}

/// A list of one.
pub(crate) fn only<T: Drop>(alloc: Global, value: T) -> Result<Vec<T>, AllocError>
    ensures { IfOk result (λ list. list.items ≡ value ∷ []) }
{
    let mut list = Vec::new(alloc);
    list.push(value)?;
    Ok(list)
}

// Marks, where several workers plan. One alone has seen all labels when it plans.
fn marks_for(alloc: Global, workers: u32) -> Option<TableMarks>
    ensures variables { (x : _) → mark_after 0 result x ≡ 0 }
    ensures stores { stores_of result ≡ [] }
{
    if workers > 1 {
        Some(TableMarks::new(alloc))
    } else {
        None
    }
}

impl Table {
    // The table of no box.
    fn empty(
        alloc: Global,
        program: &Program,
        query: &Query,
        goals: usize,
        workers: u32,
    ) -> Result<Table, AllocError>
        ensures { IfOk result (IsEmpty program.now query.now goals) }
    {
        let number = (goals as u64).checked_add(2).ok_or(AllocError)?;
        let roots = only(alloc, ROOT)?;
        let next = only(alloc, number)?;
        Ok(Table {
            program: Snapshot::of(program),
            query: Snapshot::of(query),
            boxes: BoxedMap::new(alloc),
            goals: BoxedMap::new(alloc),
            roots,
            roots_changed: 0,
            marks: marks_for(alloc, workers),
            next,
            steps: 0,
        })
    }

    /// The table of the query's one box, for so many workers. The query's variables are the nodes from `first_variable` on.
    pub fn start(
        alloc: Global,
        program: &Program,
        query: &Query,
        first_variable: u32,
        workers: u32,
    ) -> Result<Table, AllocError>
        requires variables { HasVariables program.now query.now first_variable }
        requires shown { HasShownVariables query.now }
        ensures program { IfOk result (λ t. t.program ≡ program.now) }
        ensures query { IfOk result (λ t. t.query ≡ query.now) }
        ensures started { IfOk result (λ t. IsTable (table_of t) (started program.now query.now)) }
        ensures marks { IfOk result (λ t. (x : _) → (table_of t).mark_of x ≡ 0) }
        ensures stores { IfOk result (λ t. stores_of t.marks ≡ []) }
    {
        let shown = shown_terms(alloc, program, query, first_variable)?;
        let goals = first_goals(alloc, query)?;
        let entry = first_entry(alloc, goals.as_slice(), shown)?;
        let mut table = Table::empty(alloc, program, query, goals.len(), workers)?;
        table.put_entry(ROOT, entry, goals, 0)?;
        Ok(table)
    }
}
