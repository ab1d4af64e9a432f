//! The places that wait on each variable.

ghost use Rattle.std.specs.Prelude.{◌≡◌, [], true, false, ◌||◌, ◌&&◌, not, OnOk, OnErr, IfErr};
ghost use Rattle.wake_lists.specs.Waits.{same_place, waits_on, places_at, is_variable_in, listed};
ghost use Rattle.akl_terms.specs.Names.{same_var};

use akl_terms::{Place, Var};
use std::alloc::{AllocError, Global};
use std::cmp::Reverse;
use std::collections::{BTreeMap, BTreeSet, btree_set};
use std::marker::Model;

/// The places that wait on each variable on which one does.
#[derive(Drop)]
pub(crate) struct Waiting {
    alloc: Global,
    // Younger variables stand first, as most look-ups are for them.
    places: BTreeMap<Reverse<Var>, BTreeSet<Place>>,
}

impl Model for Waiting {
    ghost use Rattle.std.specs.Prelude.{List};
    ghost use Rattle.akl_terms.specs.declared.name.Var.{Var};
    ghost use Rattle.akl_terms.specs.declared.name.Place.{Place};
    ghost use Rattle.wake_lists.specs.Waits.{waits_of};

    ghost Value = { List (Var × List Place) };

    ghost view = { λ w. waits_of w.places.entries };
}

impl Waiting {
    pub(crate) fn new(alloc: Global) -> Waiting
        ensures { result ≡ [] }
    {
        Waiting {
            alloc,
            places: BTreeMap::new(alloc),
        }
    }

    /// Whether no place waits.
    pub(crate) fn is_empty(&self) -> bool
        ensures { result ≡ true → self.now ≡ [] }
    {
        self.places.is_empty()
    }

    /// Has the place wait on these variables too. An `Err` leaves the waits of the others as they were.
    pub(crate) fn add_all(&mut self, place: Place, on: &[Var]) -> Result<(), AllocError>
        ensures added { OnOk result ((p : _) (x : _) → waits_on self.new p x ≡ (waits_on self.old p x || (same_place p place && is_variable_in x on.now))) }
        ensures others { OnErr result ((p : _) (x : _) → (same_place p place && is_variable_in x on.now) ≡ false → waits_on self.new p x ≡ waits_on self.old p x) }
    {
        for variable in on {
            self.add(place, *variable)?;
        }
        Ok(())
    }

    /// Has the place wait on none of these variables.
    pub(crate) fn remove_all(&mut self, place: Place, on: &[Var])
        ensures { (p : _) (x : _) → waits_on self.new p x ≡ (waits_on self.old p x && not (same_place p place && is_variable_in x on.now)) }
    {
        for variable in on {
            self.remove(place, *variable);
        }
    }

    /// The places that wait on a variable.
    pub(crate) fn places(&self, variable: Var) -> Option<btree_set::Iter<'_, Place>>
        ensures { listed result ≡ places_at variable self.now }
    {
        match self.places.get(&Reverse(variable)) {
            Some(places) => Some(places.iter()),
            None => None,
        }
    }

    // Has the place wait on the variable too. An `Err` leaves the waits as they were.
    fn add(&mut self, place: Place, variable: Var) -> Result<(), AllocError>
        ensures added { OnOk result ((p : _) (x : _) → waits_on self.new p x ≡ (waits_on self.old p x || (same_place p place && same_var x variable))) }
        ensures unchanged { OnErr result ((p : _) (x : _) → waits_on self.new p x ≡ waits_on self.old p x) }
    {
        if let Some(places) = self.places.get_mut(&Reverse(variable)) {
            places.insert(place)?;
            return Ok(());
        }
        let mut places = BTreeSet::new(self.alloc);
        places.insert(place)?;
        self.places.insert(Reverse(variable), places)?;
        Ok(())
    }

    // Has the place wait on the variable no more.
    fn remove(&mut self, place: Place, variable: Var)
        ensures { (p : _) (x : _) → waits_on self.new p x ≡ (waits_on self.old p x && not (same_place p place && same_var x variable)) }
    {
        let Some(places) = self.places.get_mut(&Reverse(variable)) else {
            return;
        };
        places.remove(&place);
        if places.is_empty() {
            self.places.remove(&Reverse(variable));
        }
    }
}
