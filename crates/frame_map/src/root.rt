//! The trees of workers.

ghost use Rattle.std.specs.Prelude.{◌≡◌, ◌≢◌, ◌≤◌, ◌<◌, ◌^◌, ◌++◌, [], true, false, length, Some, IfOk, OnOk, OnErr};
ghost use Rattle.name_map.specs.Pages.{listed, within};
ghost use Rattle.frame_map.specs.Contents.{ClonesAreEqual, Same, PutsMade};
ghost use Rattle.frame_map.specs.Roots.{of_root, all_roots, place_of, worker_of, value_at, IsRoot, AreRoots};

use crate::change::Change;
use crate::digits::{has_room, wider, width_for};
use crate::tree::Tree;
use akl_terms::Name;
use smallvec::SmallVec;
use std::alloc::{AllocError, Global};

/// The values of one worker's names.
#[derive(Drop)]
pub(crate) struct Root<V> {
    pub(crate) worker: u32,
    // How many binary digits the tree's numbers have at most.
    pub(crate) width: u32,
    pub(crate) tree: Tree<V>,
}

impl<V> Default for Root<V> {
    fn default() -> Root<V> {
        Root {
            worker: 0,
            width: 0,
            tree: Tree::Empty,
        }
    }
}

// How many of the roots are of workers below this one.
fn place_of<V>(roots: &[Root<V>], worker: u32) -> usize
    ensures place { result ≡ place_of worker (all_roots roots.now) }
    ensures most { result ≤ length roots.now }
{
    let mut place = 0;
    while place < roots.len() && roots[place].worker < worker {
        place += 1;
    }
    place
}

// Whether a worker's root is at a place.
fn is_at<V>(roots: &[Root<V>], place: usize, worker: u32) -> bool
    ensures there { result ≡ true → within worker_of (all_roots roots.now) place ≡ Some worker }
    ensures missing { result ≡ false → within worker_of (all_roots roots.now) place ≢ Some worker }
{
    match roots.get(place) {
        Some(root) => root.worker == worker,
        None => false,
    }
}

/// The place of the root of a name's worker. Where there's none one is made, which has room for the name.
pub(crate) fn root_for<V: Drop>(
    roots: &mut SmallVec<Root<V>, 2>,
    name: Name,
) -> Result<usize, AllocError>
    requires { AreRoots (all_roots roots.old.items) }
    ensures there { IfOk result (λ i. within worker_of (all_roots roots.new.items) i ≡ Some name.worker) }
    ensures same { (m : _) → value_at (all_roots roots.new.items) m ≡ value_at (all_roots roots.old.items) m }
    ensures roots { AreRoots (all_roots roots.new.items) }
{
    let place = place_of(roots.as_slice(), name.worker);
    if is_at(roots.as_slice(), place, name.worker) {
        return Ok(place);
    }
    roots.insert(
        place,
        Root {
            worker: name.worker,
            width: width_for(name.number),
            tree: Tree::Empty,
        },
    )?;
    Ok(place)
}

impl<V: Drop> Root<V> {
    pub(crate) fn share(&self) -> Result<Root<V>, AllocError>
        ensures { IfOk result (λ r. of_root r ≡ of_root self.now) }
    {
        Ok(Root {
            worker: self.worker,
            width: self.width,
            tree: self.tree.clone()?,
        })
    }

    // Puts nodes above the tree until it has room for a number.
    fn widen(&mut self, alloc: Global, number: u64) -> Result<(), AllocError>
        requires { IsRoot (of_root self.old) }
        ensures room { OnOk result (number < 2 ^ self.new.width) }
        ensures worker { self.new.worker ≡ self.old.worker }
        ensures same { Same (of_root self.old).contents (of_root self.new).contents }
        ensures root { IsRoot (of_root self.new) }
    {
        while !has_room(self.width, number) {
            self.tree = self.tree.below_node(alloc, self.width)?;
            self.width = wider(self.width);
        }
        Ok(())
    }
}

impl<V: Clone + Drop> Root<V> {
    /// Changes the value of a number. An `Err`, for want of memory, leaves all values as they were.
    pub(crate) fn change<C: Change<V>>(
        &mut self,
        alloc: Global,
        number: u64,
        change: C,
    ) -> Result<(), AllocError>
        requires clones { ClonesAreEqual V.is_clone }
        requires root { IsRoot (of_root self.old) }
        ensures made { OnOk result (PutsMade (C.makes change) (of_root self.old).contents (of_root self.new).contents number) }
        ensures unchanged { OnErr result (Same (of_root self.old).contents (of_root self.new).contents) }
        ensures worker { self.new.worker ≡ self.old.worker }
        ensures root { IsRoot (of_root self.new) }
    {
        self.widen(alloc, number)?;
        self.tree.change(alloc, self.width, number, change)
    }

    /// Adds the values with their names at the end of a list, in increasing order of numbers.
    pub(crate) fn push_entries(&self, list: &mut Vec<(Name, V)>) -> Result<(), AllocError>
        requires clones { ClonesAreEqual V.is_clone }
        requires root { IsRoot (of_root self.now) }
        ensures { OnOk result (list.new.items ≡ list.old.items ++ listed self.now.worker 0 (2 ^ self.now.width) (of_root self.now).contents.value []) }
    {
        self.tree.push_entries(self.worker, 0, list)
    }
}
