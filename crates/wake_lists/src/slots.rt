//! Values by numbers that are small.

ghost use Rattle.std.specs.Prelude.{◌≡◌, ◌+◌, ◌<◌, [], length, is_some, if◌then◌else◌, IsSome, option_copied, vec_len, OnOk, OnErr};
ghost use Rattle.std.specs.Map.{lookup};
ghost use Rattle.wake_lists.specs.Slots.{filled, IsPut, IsTakenOut};
ghost use lib.Dec.{eqb};

use std::alloc::{AllocError, Global};
use std::marker::Model;

/// Values by their tokens, for each of which there is a slot up to the greatest that ever had a value. Contracts see
/// the values with their tokens, in increasing order of these.
#[derive(Drop)]
pub(crate) struct Slots<V> {
    slots: Vec<Option<V>>,
    // How many slots have a value.
    count: usize,
}

impl<V> Model for Slots<V> {
    ghost use Rattle.std.specs.Prelude.{◌≡◌, List, ℕ, length};

    ghost Value = { List (ℕ × V) };

    ghost use Rattle.wake_lists.specs.Slots.{filled};

    ghost view = { λ s. filled s.slots.items };

    ghost invariant = { λ s. s.count ≡ length (filled s.slots.items) };
}

// Adds empty slots up to this index.
fn fill<V: Drop>(slots: &mut Vec<Option<V>>, index: usize) -> Result<(), AllocError>
    ensures there { OnOk result (index < vec_len slots.new) }
    ensures same { filled slots.new.items ≡ filled slots.old.items }
{
    while slots.len() <= index {
        slots.push(None)?;
    }
    Ok(())
}

impl<V> Slots<V> {
    pub(crate) fn new(alloc: Global) -> Slots<V>
        ensures { result ≡ [] }
    {
        Slots {
            slots: Vec::new(alloc),
            count: 0,
        }
    }

    /// How many values there are.
    pub(crate) fn len(&self) -> usize
        ensures { result ≡ length self.now }
    {
        self.count
    }

    pub(crate) fn get(&self, token: u64) -> Option<&V>
        ensures { option_copied result ≡ lookup (eqb token) self.now }
    {
        self.slots.get(token as usize)?.as_ref()
    }

    /// Gives the token this value, and drops the one that it had. An `Err`, for want of memory, leaves all as it was.
    pub(crate) fn insert(&mut self, token: u64, value: V) -> Result<(), AllocError>
    where
        V: Drop,
        ensures put { OnOk result (IsPut self.old self.new token value) }
        ensures unchanged { OnErr result (self.new ≡ self.old) }
    {
        let index = token as usize;
        fill(&mut self.slots, index)?;
        if self.slots[index].replace(value).is_none() {
            self.count += 1;
        }
        Ok(())
    }

    /// Gives a token that has a value another one.
    pub(crate) fn set(&mut self, token: u64, value: V)
    where
        V: Drop,
        requires there { IsSome (lookup (eqb token) self.old) }
        ensures put { IsPut self.old self.new token value }
    {
        self.slots[token as usize] = Some(value);
    }

    /// Takes out the value of the token, where it has one.
    pub(crate) fn remove(&mut self, token: u64) -> Option<V>
        ensures was { result ≡ lookup (eqb token) self.old }
        ensures gone { IsTakenOut self.old self.new token }
        ensures count { length self.new + (if is_some result then 1 else 0) ≡ length self.old }
    {
        let value = self.slots.get_mut(token as usize)?.take()?;
        self.count -= 1;
        Some(value)
    }
}
