//! A worker draws names.

ghost use Rattle.std.specs.Prelude.{◌≡◌, ◌<◌, ℕ, length, IfOk, OnOk, slice_index};
ghost use Rattle.akl_model.specs.Derivations.{raised};
ghost use Rattle.box_tree.specs.Numbers.{IsRaised};

use crate::table::Table;
use std::alloc::{AllocError, Global};

/// What becomes of the next numbers where a worker draws names.
#[derive(Drop)]
pub(crate) enum Raised {
    /// The worker's own, where there is one.
    Own(u64),
    /// All of them.
    All(Vec<u64>),
}

// Numbers with zeros behind them, up to a worker's own.
fn pad(next: &mut Vec<u64>, worker: usize) -> Result<(), AllocError>
    ensures same { OnOk result ((w : ℕ) → slice_index next.new.items w ≡ slice_index next.old.items w) }
    ensures room { OnOk result (worker < length next.new.items) }
{
    while next.len() <= worker {
        next.push(0)?;
    }
    Ok(())
}

impl Table {
    // The next numbers after a worker that has none yet has drawn so many names.
    fn first_raised(&self, alloc: Global, worker: usize, drawn: u64) -> Result<Vec<u64>, AllocError>
        ensures { IfOk result (λ next. (w : ℕ) → slice_index next.items w ≡ slice_index (raised worker drawn self.now.next) w) }
    {
        let mut next = Vec::from_slice(alloc, self.next.as_slice())?;
        pad(&mut next, worker)?;
        let Some(number) = next[worker].checked_add(drawn) else {
            return Err(AllocError);
        };
        next[worker] = number;
        Ok(next)
    }

    /// What becomes of the next numbers where a worker draws so many names.
    pub(crate) fn raised(
        &self,
        alloc: Global,
        worker: u32,
        drawn: u64,
    ) -> Result<Raised, AllocError>
        ensures { IfOk result (IsRaised self.now.next worker drawn) }
    {
        let at = worker as usize;
        if at < self.next.len() {
            let number = self.next[at].checked_add(drawn).ok_or(AllocError)?;
            return Ok(Raised::Own(number));
        }
        let next = self.first_raised(alloc, at, drawn)?;
        Ok(Raised::All(next))
    }

    /// The next numbers become what was found. It takes no memory.
    pub(crate) fn raise(&mut self, worker: u32, found: Raised)
        ensures numbers { (drawn : ℕ) → IsRaised self.old.next worker drawn found → (w : ℕ) → slice_index self.new.next w ≡ slice_index (raised worker drawn self.old.next) w }
        ensures rest { self.new ≡ record self.old { next = self.new.next } }
    {
        let at = worker as usize;
        match found {
            Raised::Own(number) => {
                if at < self.next.len() {
                    self.next[at] = number;
                }
            }
            Raised::All(next) => self.next = next,
        }
    }
}
