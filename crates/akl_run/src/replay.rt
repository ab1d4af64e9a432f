//! A run that is made once more.

ghost use Rattle.std.specs.Prelude.{◌≡◌, IfOk, OnErr};
ghost use Rattle.place_steps.specs.Again.{IsMadeIf};

use akl_model::Label;
use akl_terms::{Place, Program};
use place_steps::{Onlooker, make_again, show_place};
use std::alloc::{AllocError, Global};
use std::marker::Model;
use step_commit::Core;

/// A run that is made once more, a label at a time.
#[derive(Drop)]
pub struct Replay<'a> {
    program: &'a Program,
    core: Core,
}

impl<'a> Model for Replay<'a> {
    ghost use Rattle.std.specs.Prelude.{◌≡◌};
    ghost use Rattle.step_commit.specs.Cores.{CoreValue};

    ghost Value = { CoreValue };

    ghost view = { λ r. r.core };

    ghost invariant = { λ r. r.program.now ≡ r.core.table.program };
}

impl<'a> Replay<'a> {
    /// It goes on from this core.
    pub(crate) fn new(program: &'a Program, core: Core) -> Replay<'a>
        requires { program.now ≡ core.table.program }
        ensures { result ≡ core }
    {
        Replay { program, core }
    }

    /// What the run has come to.
    pub fn core(&self) -> &Core
        ensures { result.now ≡ self.now }
    {
        &self.core
    }

    /// Shows an onlooker what is seen of a place, and what comes next there; nothing where the place isn't there. An `Err` is
    /// want of memory, or of names for a split.
    pub fn show<O: Onlooker>(
        &self,
        alloc: Global,
        place: Place,
        onlooker: &mut O,
    ) -> Result<(), AllocError> {
        show_place(alloc, self.program, &self.core, place, onlooker)
    }

    /// Makes a label once more, which an onlooker is shown before. Answers whether it was made: not where its rule doesn't apply
    /// there, or all labels of the budget are made. An `Err` is want of memory, or of names for a split.
    pub fn make<O: Onlooker>(
        &mut self,
        alloc: Global,
        label: Label,
        onlooker: &mut O,
    ) -> Result<bool, AllocError>
        ensures made { IfOk result (IsMadeIf self.old label self.new) }
        ensures unchanged { OnErr result (self.new ≡ self.old) }
    {
        make_again(alloc, self.program, &mut self.core, label, onlooker)
    }

    /// Gives back what it has of the memory.
    pub fn end(self) {}
}
