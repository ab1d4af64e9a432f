//! A comparison is decided.

ghost use Rattle.std.specs.Prelude.{◌≡◌, ◌+◌, option_map};
ghost use Rattle.table_laws.specs.Writes.{set, changed_box, refuted_row, confirmed_row, after_refute, after_confirm};
ghost use Rattle.box_tree.specs.Tables.{table_of};
ghost use Rattle.box_tree.specs.Edits.{SetsBoxes, SetsGoals, Becomes};

use crate::entries::Held;
use crate::table::Table;
use akl_terms::{Code, Goal, Name};

impl Table {
    // A goal becomes `fail`. This has no terms, so any frame will do.
    fn make_fail(&mut self, goal: Name, number: u64)
        ensures { SetsGoals self.old self.new (set goal (option_map (refuted_row number) ((table_of self.old).goal_of goal)) (table_of self.old).goal_of) }
    {
        if let Some(entry) = self.goals.get_mut(goal) {
            let code = Code::Fail;
            entry.held = Held::Atom(Goal { code, frame: goal });
            entry.changed = number;
        }
    }

    /// A goal becomes `fail`, by which its box fails. It takes no memory.
    pub(crate) fn refute(&mut self, goal: Name, number: u64)
        requires { number ≡ self.old.steps + 1 }
        ensures { Becomes self.old self.new (after_refute goal (table_of self.old)) }
    {
        let home = self.home_of(goal);
        self.fail_by(home, goal);
        self.make_fail(goal, number);
        self.steps = number;
    }

    // A box loses a goal.
    fn lose_goal(&mut self, home: Option<Name>, goal: Name, number: u64)
        ensures { SetsBoxes self.old self.new (changed_box home (confirmed_row goal number) (table_of self.old).box_of) }
    {
        let Some(name) = home else {
            return;
        };
        if let Some(entry) = self.boxes.get_mut(name) {
            entry.goals.remove(&goal);
            entry.goals_changed = number;
        }
    }

    /// A goal goes, and its box keeps its store. It takes no memory.
    pub(crate) fn confirm(&mut self, goal: Name, number: u64)
        requires { number ≡ self.old.steps + 1 }
        ensures { Becomes self.old self.new (after_confirm goal (table_of self.old)) }
    {
        let home = self.drop_goal(goal);
        self.lose_goal(home, goal, number);
        self.steps = number;
    }
}
