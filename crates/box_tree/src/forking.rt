//! A goal becomes a choice of new boxes.

ghost use Rattle.std.specs.Prelude.{◌≡◌, ◌+◌, ◌∷◌, List, [], map, None, Some, option_map, IfOk, IfErr, OnOk};
ghost use Rattle.akl_terms.specs.declared.term.Node.{Node};
ghost use Rattle.akl_model.specs.Ordered.{IsIncreasing};
ghost use Rattle.table_laws.specs.Writes.{set, first_fail, failing_by, forked_row, failing_row, names_drawn, IsFresh, after_fork, changed_box};
ghost use Rattle.box_tree.specs.Tables.{table_of, op_held, box_row, goal_row, new_box, AreInOrder};
ghost use Rattle.box_tree.specs.Edits.{is_fail, SetsBoxes, SetsGoals, SetsRows, AddsOnly, Becomes, Clears, named_atoms, named_shapes, boxes_with, goals_with, shapes_with, choice_row, home_if_empty};

use crate::entries::{BoxEntry, GoalEntry, Held, HeldOp};
use crate::named::{IntoHeld, goal_set, push_names};
use crate::short::ShortList;
use crate::step::NewBox;
use crate::table::Table;
use crate::telling::solved_when;
use akl_terms::{Code, Goal, Name};
use std::alloc::{AllocError, Global};

// The names of boxes.
fn box_names(alloc: Global, news: &[NewBox]) -> Result<Vec<Name>, AllocError>
    ensures { IfOk result (λ names. names.items ≡ map (λ n. n.name) news.now) }
{
    let mut names = Vec::new(alloc);
    for new in news {
        names.push(new.name)?;
    }
    Ok(names)
}

// The names of boxes and of their goals.
fn drawn_names(alloc: Global, news: &[NewBox]) -> Result<ShortList<Name>, AllocError>
    ensures { IfOk result (λ names. (nodes : List Node) → names.items ≡ names_drawn (map (new_box nodes) news.now)) }
{
    let mut names = ShortList::new();
    for new in news {
        names.push(alloc, new.name)?;
        push_names(alloc, new.goals.as_slice(), &mut names)?;
    }
    Ok(names)
}

fn is_fail(code: Code) -> bool
    ensures { result ≡ is_fail code }
{
    match code {
        Code::Fail => true,
        _ => false,
    }
}

// The first goal that is `fail`.
pub(crate) fn first_fail(goals: &[(Name, Goal)]) -> Option<Name>
    ensures { (nodes : List Node) → result ≡ first_fail (named_atoms nodes goals.now) }
{
    for (name, goal) in goals {
        if is_fail(goal.code) {
            return Some(*name);
        }
    }
    None
}

// The box that fails by a choice of these boxes by the operator.
fn home_if_empty(home: Name, op: HeldOp, news: &[NewBox]) -> Option<Name>
    ensures { result ≡ home_if_empty home op news.now }
{
    match op {
        HeldOp::Collect(_) => None,
        HeldOp::Condition | HeldOp::Commit | HeldOp::Choice => {
            if news.is_empty() { Some(home) } else { None }
        }
    }
}

impl Table {
    /// A goal's entry comes.
    pub(crate) fn put_goal(&mut self, name: Name, entry: GoalEntry) -> Result<(), AllocError>
        ensures put { OnOk result (SetsGoals self.old self.new (set name (Some (goal_row self.old.program.templates.nodes entry)) (table_of self.old).goal_of)) }
        ensures only { AddsOnly self.old self.new (name ∷ []) }
    {
        self.goals.insert(name, entry)?;
        Ok(())
    }

    // A box's entry comes.
    fn put_box(&mut self, name: Name, entry: BoxEntry) -> Result<(), AllocError>
        ensures put { OnOk result (SetsBoxes self.old self.new (set name (Some (box_row self.old.program.templates.nodes entry)) (table_of self.old).box_of)) }
        ensures only { AddsOnly self.old self.new (name ∷ []) }
    {
        self.boxes.insert(name, entry)?;
        Ok(())
    }

    /// The goals of a box come.
    pub(crate) fn put_goals<T: IntoHeld>(
        &mut self,
        home: Name,
        goals: Vec<(Name, T)>,
        number: u64,
    ) -> Result<(), AllocError>
        ensures put { OnOk result (SetsGoals self.old self.new (shapes_with home number (named_shapes T.held self.old.program.templates.nodes goals.items) (table_of self.old))) }
        ensures only { AddsOnly self.old self.new (map (λ x. x.0) goals.items) }
    {
        let mut left = goals;
        while let Some((name, goal)) = left.pop() {
            let entry = GoalEntry {
                home,
                held: goal.into_held(),
                changed: number,
            };
            self.put_goal(name, entry)?;
        }
        Ok(())
    }

    /// A box's entry comes, with those of its goals.
    pub(crate) fn put_entry<T: IntoHeld>(
        &mut self,
        name: Name,
        entry: BoxEntry,
        goals: Vec<(Name, T)>,
        number: u64,
    ) -> Result<(), AllocError>
        ensures put { OnOk result (SetsRows self.old self.new (set name (Some (box_row self.old.program.templates.nodes entry)) (table_of self.old).box_of) (shapes_with name number (named_shapes T.held self.old.program.templates.nodes goals.items) (table_of self.old))) }
        ensures only { AddsOnly self.old self.new (name ∷ map (λ x. x.0) goals.items) }
    {
        self.put_goals(name, goals, number)?;
        self.put_box(name, entry)
    }

    // A new box comes, with its goals.
    fn put_new(
        &mut self,
        alloc: Global,
        holder: Name,
        new: NewBox,
        at: Option<u64>,
        number: u64,
    ) -> Result<(), AllocError>
        requires { IsIncreasing (map (λ x. x.0) new.goals.items) }
        ensures put { OnOk result (SetsRows self.old self.new (boxes_with holder at number (new_box self.old.program.templates.nodes new ∷ []) (table_of self.old)) (goals_with number (new_box self.old.program.templates.nodes new ∷ []) (table_of self.old))) }
        ensures only { AddsOnly self.old self.new (new.name ∷ map (λ x. x.0) new.goals.items) }
    {
        let names = goal_set(alloc, new.goals.as_slice())?;
        let failing = first_fail(new.goals.as_slice());
        let NewBox {
            name,
            store,
            solved,
            goals,
            body,
            collected,
        } = new;
        let entry = BoxEntry {
            holder: Some(holder),
            store,
            changed: number,
            solved_at: solved_when(at, solved),
            goals: names,
            goals_changed: number,
            failing,
            body,
            shown: Vec::new(alloc),
            collected,
        };
        self.put_entry(name, entry, goals, number)
    }

    // New boxes come, with their goals.
    fn put_news(
        &mut self,
        alloc: Global,
        holder: Name,
        news: Vec<NewBox>,
        at: Option<u64>,
        number: u64,
    ) -> Result<(), AllocError>
        requires { AreInOrder (map (new_box self.old.program.templates.nodes) news.items) }
        ensures put { OnOk result (SetsRows self.old self.new (boxes_with holder at number (map (new_box self.old.program.templates.nodes) news.items) (table_of self.old)) (goals_with number (map (new_box self.old.program.templates.nodes) news.items) (table_of self.old))) }
        ensures only { AddsOnly self.old self.new (names_drawn (map (new_box self.old.program.templates.nodes) news.items)) }
    {
        let mut left = news;
        while let Some(new) = left.pop() {
            self.put_new(alloc, holder, new, at, number)?;
        }
        Ok(())
    }

    // The entries of a name go.
    fn drop_entry(&mut self, name: Name)
        ensures { Clears self.old self.new (name ∷ []) }
    {
        self.boxes.remove(name);
        self.goals.remove(name);
    }

    /// The entries of names go.
    pub(crate) fn drop_entries(&mut self, names: &[Name])
        ensures { Clears self.old self.new names.now }
    {
        for name in names {
            self.drop_entry(*name);
        }
    }

    /// A goal becomes the choice of these boxes.
    pub(crate) fn make_choice(&mut self, goal: Name, op: HeldOp, names: Vec<Name>, number: u64)
        ensures { SetsGoals self.old self.new (set goal (option_map (choice_row (op_held self.old.program.templates.nodes op) names.items number) ((table_of self.old).goal_of goal)) (table_of self.old).goal_of) }
    {
        if let Some(entry) = self.goals.get_mut(goal) {
            entry.held = Held::Choice {
                op,
                alternatives: names,
                since: entry.changed,
            };
            entry.changed = number;
        }
    }

    // A box, where there is one, fails by a goal.
    pub(crate) fn fail_by(&mut self, home: Option<Name>, goal: Name)
        ensures { SetsBoxes self.old self.new (changed_box home (failing_row goal) (table_of self.old).box_of) }
    {
        let Some(name) = home else {
            return;
        };
        if let Some(entry) = self.boxes.get_mut(name) {
            entry.failing = Some(goal);
        }
    }

    /// A goal becomes the choice of new boxes, for which a worker draws so many names. An `Err` leaves the table as
    /// it was.
    pub(crate) fn fork(
        &mut self,
        alloc: Global,
        goal: Name,
        op: HeldOp,
        news: Vec<NewBox>,
        at: Option<u64>,
        number: u64,
        worker: u32,
        count: u64,
    ) -> Result<(), AllocError>
        requires number { number ≡ self.old.steps + 1 }
        requires fresh { IsFresh (table_of self.old) (names_drawn (map (new_box self.old.program.templates.nodes) news.items)) }
        requires ordered { AreInOrder (map (new_box self.old.program.templates.nodes) news.items) }
        ensures made { OnOk result (Becomes self.old self.new (after_fork goal (op_held self.old.program.templates.nodes op) (map (new_box self.old.program.templates.nodes) news.items) at worker count (table_of self.old))) }
        ensures unchanged { IfErr result (λ _. self.new ≡ self.old) }
    {
        let Some(home) = self.home_of(goal) else {
            return Err(AllocError);
        };
        let failing = home_if_empty(home, op, news.as_slice());
        let names = box_names(alloc, news.as_slice())?;
        let drawn = drawn_names(alloc, news.as_slice())?;
        let next = self.raised(alloc, worker, count)?;
        let Ok(()) = self.put_news(alloc, goal, news, at, number) else {
            self.drop_entries(drawn.as_slice());
            return Err(AllocError);
        };
        self.make_choice(goal, op, names, number);
        self.fail_by(failing, goal);
        self.raise(worker, next);
        self.steps = number;
        Ok(())
    }
}
