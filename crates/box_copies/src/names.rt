//! New names for old ones.

ghost use Rattle.std.specs.Prelude.{◌≡◌, ◌+◌, ◌^◌, ◌<◌, length, IfOk, MatchOption, slice_get, Some};
ghost use Rattle.std.specs.List.Sorted.{IsStrictlySortedBy};
ghost use Rattle.std.proofs.Props.{props};
ghost use Rattle.akl_terms.specs.Names.{name_cmp};
ghost use Rattle.akl_model.specs.Config.{IsIn};
ghost use Rattle.box_copies.specs.Swaps.{AreBelow};

use crate::guesses::Guesses;
use akl_terms::Name;
use std::alloc::{AllocError, Global};

/// New names for old ones: in increasing order, each gets the next number of a worker. The new ones become old ones,
/// so that no two names become one.
#[derive(Drop)]
pub struct NewNames {
    /// In increasing order.
    pub old: Vec<Name>,
    pub worker: u32,
    /// The number of the first new name.
    pub next: u64,
    guesses: Guesses,
    ghost below: { AreBelow old.items worker next },
    ghost increasing: { IsStrictlySortedBy name_cmp old.items } by { Prim.hlevel props },
    ghost room: { next + length old.items < 2 ^ 64 },
}

impl NewNames {
    ghost use Rattle.box_copies.specs.Renamer.{swapped_name};

    /// New names for these, which are the worker's from a number on. Want of memory comes also where the numbers are
    /// spent.
    pub fn new(
        alloc: Global,
        old: Vec<Name>,
        worker: u32,
        next: u64,
    ) -> Result<NewNames, AllocError>
        requires below { AreBelow old.items worker next }
        requires increasing { IsStrictlySortedBy name_cmp old.items }
        ensures { IfOk result (λ s. (s.old.items ≡ old.items) × (s.worker ≡ worker) × (s.next ≡ next)) }
    {
        next.checked_add(old.len() as u64).ok_or(AllocError)?;
        let guesses = Guesses::new(alloc, old.as_slice())?;
        Ok(NewNames {
            old,
            worker,
            next,
            guesses,
        })
    }

    /// A name, an old one and its new one for each other.
    pub fn swapped(&self, name: Name) -> Name
        ensures { result ≡ swapped_name self.now name }
    {
        match self.place_of(name) {
            Some(place) => Name {
                worker: self.worker,
                number: self.next + place as u64,
            },
            None => self.old_of(name),
        }
    }

    // Where an old name stands. Another name has no place.
    fn place_of(&self, name: Name) -> Option<usize>
        ensures { MatchOption result (IsIn name self.now.old.items → ⊥) (λ i. slice_get self.now.old.items i ≡ Some name) }
    {
        let guess = self.guesses.place_of(name);
        if guess < self.old.len() && self.old[guess] == name {
            return Some(guess);
        }
        match self.old.binary_search(&name) {
            Ok(place) => Some(place),
            Err(_) => None,
        }
    }

    // The old name of a new one. Another name that is no old one stays.
    fn old_of(&self, name: Name) -> Name
        ensures { (IsIn name self.now.old.items → ⊥) → result ≡ swapped_name self.now name }
    {
        if name.worker != self.worker || name.number < self.next {
            return name;
        }
        let place = name.number - self.next;
        match self.old.get(place as usize) {
            Some(old) => *old,
            None => name,
        }
    }
}
