//! A map from names to values, whose nodes are shared.

ghost use Rattle.std.specs.Prelude.{◌≡◌, ◌++◌, [], true, option_copied, IfOk, OnOk, OnErr};
ghost use Rattle.std.specs.Map.{lookup};
ghost use Rattle.akl_terms.specs.Names.{same_name};
ghost use Rattle.name_map.specs.Entries.{IsPut};
ghost use Rattle.frame_map.specs.Contents.{ClonesAreEqual, IsChanged};

use crate::change::{Becomes, Change};
use crate::root::{Root, root_for};
use akl_terms::Name;
use smallvec::SmallVec;
use std::alloc::{AllocError, Global};
use std::marker::Model;

/// A map from names to values, in a tree by the digits of the names' numbers for each worker. A look-up goes through
/// one leaf of 32 names that follow one another, and through a node of 32 for each further digit. Maps share nodes:
/// a change makes those on its way anew that another map holds too, and writes the others in place. Contracts see the
/// names with their values, in increasing order of the names.
#[derive(Drop)]
pub struct FrameMap<V> {
    alloc: Global,
    // One for each worker of which there is a name, in increasing order of workers.
    roots: SmallVec<Root<V>, 2>,
}

impl<V> Model for FrameMap<V> {
    ghost use Rattle.std.specs.Prelude.{List};
    ghost use Rattle.akl_terms.specs.declared.name.Name.{Name};
    ghost use Rattle.frame_map.specs.Roots.{entries, all_roots, AreRoots};

    ghost Value = { List (Name × V) };

    ghost view = { λ m. entries (all_roots m.roots.items) };

    ghost invariant = { λ m. AreRoots (all_roots m.roots.items) };
}

impl<V> FrameMap<V> {
    /// Nothing is there. It takes no memory.
    pub fn new(alloc: Global) -> FrameMap<V>
    where
        V: Drop,
        ensures { result ≡ [] }
    {
        FrameMap {
            alloc,
            roots: SmallVec::new(alloc),
        }
    }

    /// Whether no worker has a tree. Then no name has a value.
    pub fn is_empty(&self) -> bool
        ensures { result ≡ true → self.now ≡ [] }
    {
        self.roots.is_empty()
    }

    /// The value of a name.
    #[inline(always)]
    pub fn get(&self, name: Name) -> Option<&V>
        ensures { option_copied result ≡ lookup (same_name name) self.now }
    {
        for root in self.roots.as_slice() {
            if root.worker == name.worker {
                return root.tree.get(name.number);
            }
        }
        None
    }
}

impl<V: Drop> FrameMap<V> {
    /// An equal map that shares all nodes. It takes memory only where more than two workers have names; want of memory
    /// comes from a full count of owners too.
    pub fn share(&self) -> Result<FrameMap<V>, AllocError>
        ensures { IfOk result (λ m. m ≡ self.now) }
    {
        let mut roots = SmallVec::new(self.alloc);
        for root in self.roots.as_slice() {
            roots.push(root.share()?)?;
        }
        Ok(FrameMap {
            alloc: self.alloc,
            roots,
        })
    }
}

impl<V: Clone + Drop> FrameMap<V> {
    /// Gives a name a value, and drops the one that it had. Nodes that another map holds too are made anew, with clones of
    /// the values that stand beside it in its leaf. An `Err`, for want of memory, leaves all as it was.
    pub fn insert(&mut self, name: Name, value: V) -> Result<(), AllocError>
        requires clones { ClonesAreEqual V.is_clone }
        ensures put { OnOk result (IsPut self.old self.new name value) }
        ensures unchanged { OnErr result (self.new ≡ self.old) }
    {
        self.change(name, Becomes { value })
    }

    /// Changes the value of a name, where it has one or none. Nodes that another map holds too are made anew, as by `insert`.
    /// An `Err`, for want of memory, leaves all as it was.
    pub fn change<C: Change<V>>(&mut self, name: Name, change: C) -> Result<(), AllocError>
        requires clones { ClonesAreEqual V.is_clone }
        ensures changed { OnOk result (IsChanged (C.makes change) self.old self.new name) }
        ensures unchanged { OnErr result (self.new ≡ self.old) }
    {
        let place = root_for(&mut self.roots, name)?;
        let root = &mut self.roots.as_mut_slice()[place];
        root.change(self.alloc, name.number, change)
    }

    /// Adds clones of the values with their names at the end of a list, in increasing order of names.
    pub fn push_entries(&self, list: &mut Vec<(Name, V)>) -> Result<(), AllocError>
        requires clones { ClonesAreEqual V.is_clone }
        ensures { OnOk result (list.new.items ≡ list.old.items ++ self.now) }
    {
        for root in self.roots.as_slice() {
            root.push_entries(list)?;
        }
        Ok(())
    }
}
