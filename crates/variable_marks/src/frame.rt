//! The marks of one frame's variables.

ghost use Rattle.std.specs.Prelude.{◌≡◌, ◌==◌, if◌then◌else◌, IfOk, OnOk};
ghost use Rattle.std.specs.List.{position};
ghost use Rattle.variable_marks.specs.Marks.{own_mark, mark_within};

use smallvec::SmallVec;
use std::alloc::{AllocError, Global};

/// The marks of a frame's variables: of some, by their indices, and of all others.
#[derive(Drop)]
pub(crate) struct FrameMarks {
    some: SmallVec<(u32, u64), 1>,
    others: u64,
}

// Where the mark of an index stands; `None` exactly where it has none of its own.
fn place_of(marks: &[(u32, u64)], index: u32) -> Option<usize>
    ensures { result ≡ position (λ m. m.0 == index) marks.now }
{
    marks.iter().position(|mark| mark.0 == index)
}

// The mark that an index has of its own.
fn own_mark(marks: &[(u32, u64)], index: u32) -> Option<u64>
    ensures { result ≡ own_mark marks.now index }
{
    marks.iter().find(|mark| mark.0 == index).map(|mark| mark.1)
}

impl FrameMarks {
    /// The mark of the variable of this index is a number, and that of each other variable another one.
    pub(crate) fn of(
        alloc: Global,
        index: u32,
        number: u64,
        others: u64,
    ) -> Result<FrameMarks, AllocError>
        ensures { IfOk result (λ marks. (i : _) → mark_within marks i ≡ (if i == index then number else others)) }
    {
        let mut marks = FrameMarks {
            some: SmallVec::new(alloc),
            others,
        };
        marks.set(index, number)?;
        Ok(marks)
    }

    /// The mark of the variable of an index.
    pub(crate) fn get(&self, index: u32) -> u64
        ensures { result ≡ mark_within self.now index }
    {
        own_mark(self.some.as_slice(), index).unwrap_or(self.others)
    }

    /// The mark of the variable of an index becomes this number. An `Err` is want of memory.
    pub(crate) fn set(&mut self, index: u32, number: u64) -> Result<(), AllocError>
        ensures { OnOk result ((i : _) → mark_within self.new i ≡ (if i == index then number else mark_within self.old i)) }
    {
        match place_of(self.some.as_slice(), index) {
            Some(place) => self.some.as_mut_slice()[place] = (index, number),
            None if number == self.others => {}
            None => self.some.push((index, number))?,
        }
        Ok(())
    }
}
