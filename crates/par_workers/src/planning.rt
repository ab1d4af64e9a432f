//! In which root boxes the workers plan.

ghost use Rattle.std.specs.Prelude.{◌≡◌, ◌<◌, IfSome, vec_len};

use akl_terms::Name;
use std::alloc::{AllocError, Global};

/// A worker that plans, and the root box in which it does so.
#[derive(Clone, Copy)]
pub struct Planner {
    worker: u32,
    root: Option<Name>,
}

/// The workers that plan, each once.
#[derive(Drop)]
pub struct Planning {
    planners: Vec<Planner>,
}

impl Planning {
    /// None yet.
    pub(crate) fn new(alloc: Global) -> Planning {
        Planning {
            planners: Vec::new(alloc),
        }
    }

    /// Whether any worker plans.
    pub(crate) fn is_any(&self) -> bool {
        !self.planners.is_empty()
    }

    /// Whether a worker other than this one plans in a root box.
    pub(crate) fn is_by_another(&self, worker: u32, root: Option<Name>) -> bool {
        for planner in &self.planners {
            if planner.root == root && planner.worker != worker {
                return true;
            }
        }
        false
    }

    /// A worker plans in this root box from now on, and in no other.
    pub(crate) fn begin(&mut self, worker: u32, root: Option<Name>) -> Result<(), AllocError> {
        match self.index_of(worker) {
            Some(index) => self.planners[index].root = root,
            None => self.planners.push(Planner { worker, root })?,
        }
        Ok(())
    }

    /// A worker plans no more.
    pub(crate) fn end(&mut self, worker: u32) {
        if let Some(index) = self.index_of(worker) {
            self.planners.remove(index);
        }
    }

    // Where a worker that plans stands.
    fn index_of(&self, worker: u32) -> Option<usize>
        ensures { IfSome result (λ index. index < vec_len self.now.planners) }
    {
        for index in 0..self.planners.len() {
            if self.planners[index].worker == worker {
                return Some(index);
            }
        }
        None
    }
}
