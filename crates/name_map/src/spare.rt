//! The slots of a page that was emptied.

ghost use Rattle.std.specs.Prelude.{◌≡◌, true};
ghost use Rattle.std.specs.List.{list_all};
ghost use Rattle.name_map.specs.Free.{is_free};

use std::alloc::Global;
use std::marker::Model;
use std::mem;

/// The slots of a page that was emptied, for the next page that is begun. Without slots it has no memory of its own.
#[derive(Drop)]
pub(crate) struct Spare<V> {
    slots: Vec<Option<V>>,
}

impl<V> Model for Spare<V> {
    ghost use Rattle.std.specs.Prelude.{◌≡◌, true};
    ghost use Rattle.std.specs.List.{list_all};
    ghost use Rattle.name_map.specs.Free.{is_free};

    ghost Value = { Unit {0} };

    ghost view = { λ s. tt };

    ghost invariant = { λ s. list_all is_free s.slots.items ≡ true };
}

impl<V> Spare<V> {
    pub(crate) fn new(alloc: Global) -> Spare<V> {
        Spare {
            slots: Vec::new(alloc),
        }
    }

    /// Keeps slots that have no value, and gives back the memory of those that it had.
    pub(crate) fn keep(&mut self, slots: Vec<Option<V>>)
    where
        V: Drop,
        requires { list_all is_free slots.items ≡ true }
    {
        self.slots = slots;
    }

    /// The slots that it has, if any. None has a value.
    pub(crate) fn take(&mut self, alloc: Global) -> Vec<Option<V>>
        ensures { list_all is_free result.items ≡ true }
    {
        mem::replace(&mut self.slots, Vec::new(alloc))
    }
}
