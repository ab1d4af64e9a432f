//! The marks of all variables.

ghost use Rattle.std.specs.Prelude.{◌≡◌, ◌∷◌, [], IfOk, OnOk};
ghost use Rattle.variable_marks.specs.Marks.{mark_in, MarksEach};

use crate::frame::FrameMarks;
use akl_terms::{Name, Var};
use std::alloc::{AllocError, Global};
use std::cmp::Reverse;
use std::collections::BTreeMap;
use std::marker::Model;

// So many frames have marks of their own at most.
const MOST: usize = 4096;

/// A mark of each variable.
///
/// Marks of some variables of a frame, or of all of them, are kept for a few thousand frames at most; all other variables
/// have one mark in common. A look-up takes time in the order of the logarithm of the frames that have marks of their own,
/// and of the variables of its frame that do.
#[derive(Drop)]
pub struct Marks {
    alloc: Global,
    // Younger frames stand first, as most look-ups are for them.
    frames: BTreeMap<Reverse<Name>, FrameMarks>,
    // The mark of the variables of all other frames.
    others: u64,
}

impl Model for Marks {
    ghost use Rattle.variable_marks.specs.Marks.{MarksValue, frames_of};

    ghost Value = { MarksValue };

    ghost view = { λ m. record { frames = frames_of m.frames.entries; others = m.others } };
}

// Whether a name is this one, or one that the same worker draws after it.
fn is_from(name: Name, first: Name) -> bool {
    name.worker == first.worker && name.number >= first.number
}

impl Marks {
    /// Each variable has the mark 0.
    pub fn new(alloc: Global) -> Marks
        ensures { (x : _) → mark_in result x ≡ 0 }
    {
        Marks {
            alloc,
            frames: BTreeMap::new(alloc),
            others: 0,
        }
    }

    /// The mark of a variable.
    pub fn get(&self, variable: Var) -> u64
        ensures { result ≡ mark_in self.now variable }
    {
        match self.frames.get(&Reverse(variable.frame)) {
            Some(marks) => marks.get(variable.index),
            None => self.others,
        }
    }

    /// The marks of these variables become this number. Those of others may become it too: of the variables of a frame whose
    /// name is `first`, or drawn after it by the same worker; and of all, where too many frames have marks of their own, or
    /// no memory is left.
    pub fn mark(&mut self, variables: &[Var], first: Name, number: u64)
        ensures { MarksEach variables.now number self.old self.new }
    {
        if self.mark_each(variables, first, number).is_err() || self.frames.len() > MOST {
            self.mark_all(number);
        }
    }

    // The marks of these variables become this number, and so may those of others of their frames. An `Err` is want of memory.
    fn mark_each(&mut self, variables: &[Var], first: Name, number: u64) -> Result<(), AllocError>
        ensures { OnOk result (MarksEach variables.now number self.old self.new) }
    {
        for variable in variables {
            self.mark_one(*variable, first, number)?;
        }
        Ok(())
    }

    // The mark of a variable becomes this number, and so may those of others of its frame. An `Err` is want of memory.
    fn mark_one(&mut self, variable: Var, first: Name, number: u64) -> Result<(), AllocError>
        ensures { OnOk result (MarksEach (variable ∷ []) number self.old self.new) }
    {
        if let Some(marks) = self.frames.get_mut(&Reverse(variable.frame)) {
            marks.set(variable.index, number)?;
            return Ok(());
        }
        let others = if is_from(variable.frame, first) {
            number
        } else {
            self.others
        };
        let marks = FrameMarks::of(self.alloc, variable.index, number, others)?;
        self.frames.insert(Reverse(variable.frame), marks)?;
        Ok(())
    }

    // All marks become this number.
    fn mark_all(&mut self, number: u64)
        ensures { (x : _) → mark_in self.new x ≡ number }
    {
        self.frames.clear();
        self.others = number;
    }
}
