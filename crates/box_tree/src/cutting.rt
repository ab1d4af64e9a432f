//! A choice loses the alternatives for which a solved one leaves no room.

ghost use Rattle.std.specs.Prelude.{◌≡◌, ◌+◌, ◌&&◌, not, [], IfOk, IfErr, OnOk};
ghost use Rattle.table_laws.specs.Walks.{alternatives_of, ListsEach};
ghost use Rattle.table_laws.specs.Writes.{names_kept, names_cut, Cuts};
ghost use Rattle.box_tree.specs.Tables.{table_of, op_held};
ghost use Rattle.box_tree.specs.Edits.{keeps};
ghost use Rattle.box_tree.specs.Choices.{IsChoiceBy};
ghost use Rattle.box_tree.specs.Drops.{IsOfRun};

use crate::entries::HeldOp;
use crate::short::ShortList;
use crate::table::Table;
use crate::view::Sight;
use akl_terms::{Name, Place};
use std::alloc::{AllocError, Global};

// Whether an alternative is kept, by whether the solved one was passed before it, and whether it has the name of that one.
fn keeps(op: HeldOp, passed: bool, same: bool) -> bool
    ensures { result ≡ keeps op passed (not passed && same) }
{
    match op {
        HeldOp::Condition => !passed,
        HeldOp::Commit => !passed && same,
        HeldOp::Choice | HeldOp::Collect(_) => true,
    }
}

/// The alternatives of a choice that are kept where it is cut at one of them, and those that go. An `Err` comes for want
/// of memory.
pub fn parted(
    alloc: Global,
    op: HeldOp,
    name: Name,
    names: &[Name],
) -> Result<(Vec<Name>, Vec<Name>), AllocError>
    ensures kept { IfOk result (λ p. p.0.items ≡ names_kept (op_held [] op) name names.now) }
    ensures gone { IfOk result (λ p. p.1.items ≡ names_cut (op_held [] op) name names.now) }
{
    let mut kept = Vec::new(alloc);
    let mut gone = Vec::new(alloc);
    let mut passed = false;
    for other in names {
        let same = name == *other;
        if keeps(op, passed, same) {
            kept.push(*other)?;
        } else {
            gone.push(*other)?;
        }
        passed = passed || same;
    }
    Ok((kept, gone))
}

impl Table {
    /// The operator of a choice. An `Err` comes where the goal isn't one.
    pub(crate) fn op_of(&self, goal: Name) -> Result<HeldOp, AllocError>
        ensures { IfOk result (IsChoiceBy self.now goal) }
    {
        let Some((_, Sight::Choice { op })) = self.sight_of(Place::Goal(goal)) else {
            return Err(AllocError);
        };
        Ok(op)
    }

    /// The alternatives of a goal that are kept where it is cut at one of them, and the boxes that go: the others with the
    /// boxes inside them. An `Err` comes for want of memory.
    pub(crate) fn kept_and_gone(
        &self,
        alloc: Global,
        goal: Name,
        op: HeldOp,
        name: Name,
    ) -> Result<(Vec<Name>, ShortList<Name>), AllocError>
        requires { IsOfRun self.now }
        ensures kept { IfOk result (λ p. p.0.items ≡ names_kept (op_held self.now.program.templates.nodes op) name (alternatives_of ((table_of self.now).goal_of goal))) }
        ensures gone { IfOk result (λ p. ListsEach (table_of self.now) (names_cut (op_held self.now.program.templates.nodes op) name (alternatives_of ((table_of self.now).goal_of goal))) p.1.items) }
    {
        let (kept, others) = parted(alloc, op, name, self.alternatives_of(goal))?;
        let gone = self.inside_each(alloc, others.as_slice())?;
        Ok((kept, gone))
    }

    /// A choice loses the alternatives for which a solved one leaves no room, with all that stands in them. An `Err`
    /// leaves the table as it was.
    pub(crate) fn cut(
        &mut self,
        alloc: Global,
        goal: Name,
        name: Name,
        number: u64,
    ) -> Result<(), AllocError>
        requires number { number ≡ self.old.steps + 1 }
        requires run { IsOfRun self.old }
        ensures program { OnOk result (self.new.program ≡ self.old.program) }
        ensures query { OnOk result (self.new.query ≡ self.old.query) }
        ensures marks { OnOk result (self.new.marks ≡ self.old.marks) }
        ensures cuts { OnOk result (Cuts (table_of self.old) (table_of self.new) goal name) }
        ensures unchanged { IfErr result (λ _. self.new ≡ self.old) }
    {
        let op = self.op_of(goal)?;
        let (kept, gone) = self.kept_and_gone(alloc, goal, op, name)?;
        self.make_choice(goal, op, kept, number);
        self.drop_boxes(gone.as_slice());
        self.steps = number;
        Ok(())
    }
}
