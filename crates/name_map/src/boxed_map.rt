//! A map from names to values in boxes.

ghost use Rattle.std.specs.Prelude.{◌≡◌, ◌++◌, [], option_copied, OnOk, OnErr};
ghost use Rattle.std.specs.Option.{option_copied_mut};
ghost use Rattle.std.specs.Borrow.{sem};
ghost use Rattle.std.specs.Map.{lookup, keys_of};
ghost use Rattle.akl_terms.specs.Names.{same_name};
ghost use Rattle.name_map.specs.Entries.{IsPut, IsTakenOut};
ghost use Rattle.name_map.specs.Lending.{lends_boxed};

use crate::boxed::Boxed;
use crate::map::NameMap;
use akl_terms::Name;
use std::alloc::{AllocError, Global};
use std::marker::Model;

/// A map from names to values, each of which stands in a box of its own. So a name that isn't there takes no room of a
/// value's size. Contracts see the names with their values, as those of `NameMap` do.
#[derive(Drop)]
pub struct BoxedMap<V> {
    alloc: Global,
    boxes: NameMap<Boxed<V>>,
}

impl<V> Model for BoxedMap<V> {
    ghost use Rattle.std.specs.Prelude.{List};
    ghost use Rattle.akl_terms.specs.declared.name.Name.{Name};

    ghost Value = { List (Name × V) };

    ghost view = { λ m. m.boxes };
}

impl<V> BoxedMap<V> {
    /// Nothing is there.
    pub fn new(alloc: Global) -> BoxedMap<V>
        ensures { result ≡ [] }
    {
        BoxedMap {
            alloc,
            boxes: NameMap::new(alloc),
        }
    }

    /// The value of a name.
    pub fn get(&self, name: Name) -> Option<&V>
        ensures { option_copied result ≡ lookup (same_name name) self.now }
    {
        Some(self.boxes.get(name)?.get())
    }

    /// The value of a name, to be written.
    pub fn get_mut(&mut self, name: Name) -> Option<&mut V>
        ensures* writes_back { sem 𝓛 (lends_boxed V.row self.entry name result) }
        ensures value { option_copied_mut result ≡ lookup (same_name name) self.old }
    {
        let boxed = self.boxes.get_mut(name)?;
        Some(boxed.get_mut())
    }

    /// Gives a name a value, and drops the one that it had. An `Err`, for want of memory, leaves all as it was.
    pub fn insert(&mut self, name: Name, value: V) -> Result<(), AllocError>
    where
        V: Drop,
        ensures put { OnOk result (IsPut self.old self.new name value) }
        ensures unchanged { OnErr result (self.new ≡ self.old) }
    {
        let boxed = Boxed::new(self.alloc, value)?;
        self.boxes.insert(name, boxed)
    }

    /// Takes a name out, with its value.
    pub fn remove(&mut self, name: Name) -> Option<V>
    where
        V: Drop,
        ensures was { result ≡ lookup (same_name name) self.old }
        ensures gone { IsTakenOut self.old self.new name }
    {
        Some(self.boxes.remove(name)?.into_value())
    }

    /// Adds the names at the end of a list, in increasing order. An `Err` comes for want of memory, and where a number
    /// would pass its word.
    pub fn push_names(&self, list: &mut Vec<Name>) -> Result<(), AllocError>
        ensures { OnOk result (list.new.items ≡ list.old.items ++ keys_of self.now) }
    {
        self.boxes.push_names(list)
    }
}
