//! A map from names to values.

ghost use Rattle.std.specs.Prelude.{◌≡◌, ◌<◌, ◌++◌, [], vec_len, is_some, option_copied, OnOk, OnErr};
ghost use Rattle.std.specs.Option.{option_copied_mut};
ghost use Rattle.std.specs.Borrow.{sem};
ghost use Rattle.std.specs.Map.{lookup, keys_of};
ghost use Rattle.akl_terms.specs.Names.{same_name};
ghost use Rattle.name_map.specs.Entries.{IsPut, IsTakenOut};
ghost use Rattle.name_map.specs.Lending.{lends_get};
ghost use Rattle.name_map.specs.Pages.{value_at};

use crate::numbers::Numbers;
use crate::spare::Spare;
use akl_terms::Name;
use std::alloc::{AllocError, Global};
use std::marker::Model;

/// A map from names to values. A look-up takes the same time whatever is there. Eight names that follow one another
/// share a page, which takes memory while one of them is there, or while it is the page that was begun last. Of the
/// pages of a worker's names that were emptied one keeps its memory, for the next page that is begun. Contracts see the
/// names with their values, in increasing order of the names.
#[derive(Drop)]
pub struct NameMap<V> {
    alloc: Global,
    workers: Vec<Numbers<V>>,
}

impl<V> Model for NameMap<V> {
    ghost use Rattle.std.specs.Prelude.{List};
    ghost use Rattle.akl_terms.specs.declared.name.Name.{Name};
    ghost use Rattle.name_map.specs.Pages.{entries};

    ghost Value = { List (Name × V) };

    ghost view = { λ m. entries m.workers.items };
}

// Makes the lists of numbers up to this worker's.
fn make_workers<V: Drop>(
    alloc: Global,
    workers: &mut Vec<Numbers<V>>,
    index: usize,
) -> Result<(), AllocError>
    ensures there { OnOk result (index < vec_len workers.new) }
    ensures same { (m : _) → value_at workers.new.items m ≡ value_at workers.old.items m }
{
    while workers.len() <= index {
        workers.push(Numbers {
            chunks: Vec::new(alloc),
            newest: 0,
            spare: Spare::new(alloc),
        })?;
    }
    Ok(())
}

impl<V> NameMap<V> {
    /// Nothing is there.
    pub fn new(alloc: Global) -> NameMap<V>
        ensures { result ≡ [] }
    {
        NameMap {
            alloc,
            workers: Vec::new(alloc),
        }
    }

    /// The value of a name.
    pub fn get(&self, name: Name) -> Option<&V>
        ensures { option_copied result ≡ lookup (same_name name) self.now }
    {
        self.workers.get(name.worker as usize)?.get(name.number)
    }

    /// Whether a name is there.
    pub fn contains(&self, name: Name) -> bool
        ensures { result ≡ is_some (lookup (same_name name) self.now) }
    {
        self.get(name).is_some()
    }

    /// The value of a name, to be written.
    pub fn get_mut(&mut self, name: Name) -> Option<&mut V>
        ensures* writes_back { sem 𝓛 (lends_get V.row self.entry name result) }
        ensures value { option_copied_mut result ≡ lookup (same_name name) self.old }
    {
        self.workers
            .get_mut(name.worker as usize)?
            .get_mut(name.number)
    }

    /// Gives a name a value, and drops the one that it had. An `Err`, for want of memory, leaves all as it was.
    pub fn insert(&mut self, name: Name, value: V) -> Result<(), AllocError>
    where
        V: Drop,
        ensures put { OnOk result (IsPut self.old self.new name value) }
        ensures unchanged { OnErr result (self.new ≡ self.old) }
    {
        let worker = name.worker as usize;
        make_workers(self.alloc, &mut self.workers, worker)?;
        self.workers[worker].insert(self.alloc, name.number, value)
    }

    /// Takes a name out, with its value.
    pub fn remove(&mut self, name: Name) -> Option<V>
    where
        V: Drop,
        ensures was { result ≡ lookup (same_name name) self.old }
        ensures gone { IsTakenOut self.old self.new name }
    {
        self.workers
            .get_mut(name.worker as usize)?
            .remove(self.alloc, name.number)
    }

    /// Adds the names at the end of a list, in increasing order. An `Err` comes for want of memory, and where a number
    /// would pass its word.
    pub fn push_names(&self, list: &mut Vec<Name>) -> Result<(), AllocError>
        ensures { OnOk result (list.new.items ≡ list.old.items ++ keys_of self.now) }
    {
        for index in 0..self.workers.len() {
            let Ok(worker) = u32::try_from(index) else {
                return Err(AllocError);
            };
            self.workers[index].push_names(worker, list)?;
        }
        Ok(())
    }
}
