//! A box goes with all that stands in it.

ghost use Rattle.std.specs.Prelude.{◌≡◌, ◌+◌, List, Some, option_map};
ghost use Rattle.akl_terms.specs.declared.term.Node.{Node};
ghost use Rattle.table_laws.specs.Writes.{set, less_name, less_alternative, none_left, fails_empty, left_row, held_without, holder_in_row, Fails};
ghost use Rattle.table_laws.specs.Walks.{ListsInside};
ghost use Rattle.box_tree.specs.Tables.{table_of, goal_row, shape_held, op_held};
ghost use Rattle.box_tree.specs.Edits.{SetsGoals};
ghost use Rattle.box_tree.specs.Drops.{emptied_home, HasRows};

use crate::entries::{GoalEntry, Held, HeldOp};
use crate::table::Table;
use akl_terms::Name;

// A name goes from a list, where it is first.
fn remove_name(names: &mut Vec<Name>, name: Name)
    ensures { names.new.items ≡ less_name name names.old.items }
{
    let mut at = 0;
    while at < names.len() {
        if names[at] == name {
            names.remove(at);
            return;
        }
        at += 1;
    }
}

// Whether a choice by the operator that has no alternatives makes its box fail.
fn fails_empty(op: HeldOp) -> bool
    ensures { (nodes : List Node) → result ≡ fails_empty (op_held nodes op) }
{
    match op {
        HeldOp::Collect(_) => false,
        HeldOp::Condition | HeldOp::Commit | HeldOp::Choice => true,
    }
}

impl Held {
    // A choice loses an alternative.
    fn lose(&mut self, name: Name)
        ensures { (nodes : List Node) → shape_held nodes self.new ≡ less_alternative name (shape_held nodes self.old) }
    {
        if let Held::Choice { alternatives, .. } = self {
            remove_name(alternatives, name);
        }
    }

    // Whether it is a choice without alternatives that makes its box fail.
    fn has_none(&self) -> bool
        ensures { (nodes : List Node) → result ≡ none_left (shape_held nodes self.now) }
    {
        match self {
            Held::Atom(_) => false,
            Held::Choice {
                op,
                alternatives,
                ..
            } => alternatives.is_empty() && fails_empty(*op),
        }
    }
}

impl GoalEntry {
    // The home of a choice without alternatives.
    fn emptied_home(&self) -> Option<Name>
        ensures { (nodes : List Node) → result ≡ emptied_home (Some (goal_row nodes self.now)) }
    {
        if self.held.has_none() {
            Some(self.home)
        } else {
            None
        }
    }
}

impl Table {
    /// The choice that holds a box; `None` of a root box, and where it isn't there.
    pub fn holder_of(&self, name: Name) -> Option<Name>
        ensures { result ≡ holder_in_row ((table_of self.now).box_of name) }
    {
        match self.boxes.get(name) {
            Some(entry) => entry.holder,
            None => None,
        }
    }

    // A choice loses an alternative: its home, where it has none left.
    fn lose_alternative(&mut self, goal: Name, name: Name, number: u64) -> Option<Name>
        ensures lost { SetsGoals self.old self.new (set goal (option_map (left_row name number) ((table_of self.old).goal_of goal)) (table_of self.old).goal_of) }
        ensures home { result ≡ emptied_home ((table_of self.new).goal_of goal) }
    {
        let Some(entry) = self.goals.get_mut(goal) else {
            return None;
        };
        entry.held.lose(name);
        entry.changed = number;
        entry.emptied_home()
    }

    // What holds a box loses it: a choice, whose home may fail by it then, or the list of root boxes.
    fn lose(&mut self, holder: Option<Name>, name: Name, number: u64)
        requires { number ≡ self.old.steps + 1 }
        ensures { HasRows self.old self.new (held_without name holder (table_of self.old)) }
    {
        let Some(goal) = holder else {
            remove_name(&mut self.roots, name);
            self.roots_changed = number;
            return;
        };
        let home = self.lose_alternative(goal, name, number);
        self.fail_by(home, goal);
    }

    /// A box goes with the boxes inside it, which are listed, and with all their goals. It takes no memory.
    pub(crate) fn fail(&mut self, name: Name, names: &[Name], number: u64)
        requires number { number ≡ self.old.steps + 1 }
        requires listed { ListsInside (table_of self.old) name names.now }
        ensures program { self.new.program ≡ self.old.program }
        ensures query { self.new.query ≡ self.old.query }
        ensures marks { self.new.marks ≡ self.old.marks }
        ensures fails { Fails (table_of self.old) (table_of self.new) name }
    {
        let holder = self.holder_of(name);
        self.lose(holder, name, number);
        self.drop_boxes(names);
        self.steps = number;
    }
}
