//! Plans, each right for every journal that goes on from the one that it saw and leaves alone what it read.

ghost use Rattle.std.specs.Prelude.{◌≡◌, length, IfOk};
ghost use Rattle.std.specs.Prelude.{[]};
ghost use Rattle.box_tree.specs.Plans.{PlanValue, IsRight, IsRightLabel, IsRightCall, labels_behind};

use crate::step::Step;
use crate::view::View;
use akl_model::{Item, Label};
use akl_terms::Var;
use std::alloc::{AllocError, Global};
use std::marker::Model;
use std::snapshot::Snapshot;

/// A label that was planned, or the labels of a call, with what was read and what they make. It remembers in no bytes the
/// view of which it was made.
#[derive(Drop)]
pub struct Plan {
    view: Snapshot<View>,
    parts: Box<PlanParts>,
    ghost same_length: { parts.value.seen ≡ length view.value.journal },
}

// The parts of a plan, which stand in a box since a plan passes through many results.
#[derive(Drop)]
struct PlanParts {
    seen: u64,
    label: Label,
    more: Vec<Label>,
    reads: Vec<Item>,
    names: u64,
    step: Step,
    binds: Vec<Var>,
}

impl Model for Plan {
    ghost use Rattle.box_tree.specs.Plans.{PlanValue, IsRight};

    ghost Value = { PlanValue };

    ghost view = { λ p. record { table = p.view.value.table; journal = p.view.value.journal; label = p.parts.value.label; more = p.parts.value.more.items; reads = p.parts.value.reads.items; names = p.parts.value.names; step = p.parts.value.step; binds = p.parts.value.binds.items } };

    ghost invariant = { λ p. IsRight (record { table = p.view.value.table; journal = p.view.value.journal; label = p.parts.value.label; more = p.parts.value.more.items; reads = p.parts.value.reads.items; names = p.parts.value.names; step = p.parts.value.step; binds = p.parts.value.binds.items }) };
}

impl Plan {
    /// A plan of one label that is right for its view. An `Err` is want of memory.
    pub fn new(
        alloc: Global,
        view: &View,
        label: Label,
        reads: Vec<Item>,
        names: u64,
        step: Step,
        binds: Vec<Var>,
    ) -> Result<Plan, AllocError>
        requires right { IsRightLabel (record { table = view.now.table; journal = view.now.journal; label = label; more = []; reads = reads.items; names = names; step = step; binds = binds.items }) }
        requires alone { labels_behind step ≡ (0, 0) }
        ensures { IfOk result (λ plan. plan ≡ record { table = view.now.table; journal = view.now.journal; label = label; more = []; reads = reads.items; names = names; step = step; binds = binds.items }) }
    {
        let parts = PlanParts {
            seen: view.seen(),
            label,
            more: Vec::new(alloc),
            reads,
            names,
            step,
            binds,
        };
        Ok(Plan {
            view: Snapshot::of(view),
            parts: Box::new(alloc, parts)?,
        })
    }

    /// A plan of the labels of a call, the first one and those behind it, that is right for its view. An `Err` is want of
    /// memory.
    pub fn of_call(
        alloc: Global,
        view: &View,
        label: Label,
        more: Vec<Label>,
        reads: Vec<Item>,
        names: u64,
        step: Step,
        binds: Vec<Var>,
    ) -> Result<Plan, AllocError>
        requires { IsRightCall (record { table = view.now.table; journal = view.now.journal; label = label; more = more.items; reads = reads.items; names = names; step = step; binds = binds.items }) }
        ensures { IfOk result (λ plan. plan ≡ record { table = view.now.table; journal = view.now.journal; label = label; more = more.items; reads = reads.items; names = names; step = step; binds = binds.items }) }
    {
        let parts = PlanParts {
            seen: view.seen(),
            label,
            more,
            reads,
            names,
            step,
            binds,
        };
        Ok(Plan {
            view: Snapshot::of(view),
            parts: Box::new(alloc, parts)?,
        })
    }

    /// How many labels the journal had when the plan's place was looked at.
    pub fn seen(&self) -> u64
        ensures { result ≡ length self.now.journal }
    {
        self.parts.seen
    }

    /// The first label.
    pub fn label(&self) -> Label
        ensures { result ≡ self.now.label }
    {
        self.parts.label
    }

    /// The labels behind the first one, of a call; none of a plan of one label.
    pub fn more(&self) -> &[Label]
        ensures { result.now ≡ self.now.more }
    {
        self.parts.more.as_slice()
    }

    /// The items that were read.
    pub fn reads(&self) -> &[Item]
        ensures reads { result.now ≡ self.now.reads }
        ensures right { IsRight self.now }
    {
        self.parts.reads.as_slice()
    }

    /// How many names the labels draw.
    pub fn names(&self) -> u64
        ensures { result ≡ self.now.names }
    {
        self.parts.names
    }

    /// Variables that the labels bind or make equal in the box of its place, enough of them: to each such variable one
    /// of them is equal by the equations of the outermost box around. One may be listed more than once.
    pub fn binds(&self) -> &[Var]
        ensures { result.now ≡ self.now.binds }
    {
        self.parts.binds.as_slice()
    }

    /// What the plan makes.
    pub fn step(&self) -> &Step
        ensures { result.now ≡ self.now.step }
    {
        &self.parts.step
    }

    /// What the plan makes, and the variables that it lists as bound.
    pub fn into_parts(self) -> (Step, Vec<Var>)
        ensures step { result.0 ≡ self.step }
        ensures binds { result.1.items ≡ self.binds }
    {
        let parts = Box::into_inner(self.parts);
        (parts.step, parts.binds)
    }
}
