//! Why a plan isn't committed.

use akl_model::Item;
use std::alloc::AllocError;

/// Why a plan isn't committed. It is dropped, and the core is as it was.
#[derive(Clone, Copy)]
pub enum CommitError {
    /// The journal has as many labels as the budget allows. This is tested first.
    Spent { budget: u64 },
    /// The budget has room for so many labels more, and not for all of the plan. A plan of one label may be made instead.
    Short { left: u64 },
    /// A label that the plan didn't see changed an item that it read: the first such item, with the number of the last
    /// label that changed it, or `None` where the item has gone.
    Stale { item: Item, stamp: Option<u64> },
    /// There was no memory.
    Memory(AllocError),
}

impl From<AllocError> for CommitError {
    ghost use Rattle.std.specs.Prelude.{◌≡◌};
    ghost use Rattle.step_commit.specs.declared.commit.CommitError.TheVariants as variants;

    ghost from_gives = { λ cause error. error ≡ variants.Memory cause };

    fn from(error: AllocError) -> Self {
        CommitError::Memory(error)
    }
}
