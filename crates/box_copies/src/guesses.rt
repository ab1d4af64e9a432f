//! Where a name may stand among others.

use akl_terms::Name;
use std::alloc::{AllocError, Global};

// How many numbers the table may have for each name.
const SPARSE: u64 = 16;

/// A table by numbers of where the names of one worker stand in a list in increasing order: of the worker that has most
/// of them, where one has more than half. It only guesses, and whoever asks looks: a name that isn't in the list gets
/// some place too, and so do those of other workers.
#[derive(Drop)]
pub(crate) struct Guesses {
    worker: u32,
    // The number of the worker's first name in the list.
    first: u64,
    // By how far a number is from the first one. Empty where the names are too few for their numbers.
    places: Vec<usize>,
}

// The first and the last number of a worker's names.
fn numbers_of(names: &[Name], worker: u32) -> (u64, u64) {
    let mut first = u64::MAX;
    let mut last = 0;
    for name in names {
        if name.worker == worker {
            first = first.min(name.number);
            last = last.max(name.number);
        }
    }
    (first, last)
}

impl Guesses {
    /// The table of names in increasing order.
    pub(crate) fn new(alloc: Global, names: &[Name]) -> Result<Guesses, AllocError> {
        let worker = match names.get(names.len() / 2) {
            Some(middle) => middle.worker,
            None => 0,
        };
        let (first, last) = numbers_of(names, worker);
        let mut guesses = Guesses {
            worker,
            first,
            places: Vec::new(alloc),
        };
        let span = last.saturating_sub(first);
        if span / SPARSE < names.len() as u64 {
            guesses.places.resize(span.saturating_add(1) as usize, 0)?;
            guesses.fill(names);
        }
        Ok(guesses)
    }

    // Notes the places of the worker's names.
    fn fill(&mut self, names: &[Name]) {
        for (place, name) in names.iter().enumerate() {
            let at = name.number.saturating_sub(self.first) as usize;
            if name.worker == self.worker && at < self.places.len() {
                self.places[at] = place;
            }
        }
    }

    /// A place at which the name may stand.
    #[inline(always)]
    pub(crate) fn place_of(&self, name: Name) -> usize {
        let at = name.number.saturating_sub(self.first) as usize;
        if name.worker == self.worker && at < self.places.len() {
            self.places[at]
        } else {
            0
        }
    }
}
