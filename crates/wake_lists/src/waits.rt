//! Which places wait on which variables.

ghost use Rattle.std.specs.Prelude.{◌≡◌, true, [], false, ◌||◌, ◌&&◌, not, IfOk, IfErr};
ghost use Rattle.std.specs.List.{IsDistinct};
ghost use Rattle.akl_terms.specs.Names.{same_var};
ghost use Rattle.wake_lists.specs.Waits.{same_place, waits_on, places_at, is_variable_in};

use crate::place_map::PlaceMap;
use crate::waiting::Waiting;
use akl_terms::{Place, Var};
use std::alloc::{AllocError, Global};
use std::collections::btree_set;
use std::marker::Model;

/// Which places wait on which variables. Contracts see it as the places that wait on each variable on which one does.
///
/// A call takes time in the order of the logarithm of what is held, for each variable that it is given or on which its
/// place waits.
#[derive(Drop)]
pub struct Waits {
    alloc: Global,
    by_variable: Waiting,
    // Each variable of a place once.
    by_place: PlaceMap<Vec<Var>>,
}

impl Model for Waits {
    ghost use Rattle.std.specs.Prelude.{List};
    ghost use Rattle.akl_terms.specs.declared.name.Var.{Var};
    ghost use Rattle.akl_terms.specs.declared.name.Place.{Place};
    ghost use Rattle.wake_lists.specs.KeptWaits.{AreKeptBoth};

    ghost Value = { List (Var × List Place) };

    ghost view = { λ w. w.by_variable };

    ghost invariant = { λ w. AreKeptBoth w.by_variable w.by_place };
}

impl Waits {
    /// No place waits.
    pub fn new(alloc: Global) -> Waits
        ensures { result ≡ [] }
    {
        Waits {
            alloc,
            by_variable: Waiting::new(alloc),
            by_place: PlaceMap::new(alloc),
        }
    }

    /// Whether no place waits.
    pub fn is_empty(&self) -> bool
        ensures { result ≡ true → self.now ≡ [] }
    {
        self.by_variable.is_empty()
    }

    /// Keeps the waits of a place that has none: on these variables. An `Err`, for want of memory, leaves all waits as
    /// they were.
    pub fn suspend(&mut self, place: Place, on: &[Var]) -> Result<(), AllocError>
        requires { (x : _) → waits_on self.old place x ≡ false }
        ensures kept { IfOk result (λ _. (p : _) (x : _) → waits_on self.new p x ≡ (waits_on self.old p x || (same_place p place && is_variable_in x on.now))) }
        ensures unchanged { IfErr result (λ _. (p : _) (x : _) → waits_on self.new p x ≡ waits_on self.old p x) }
    {
        let variables = each_once(self.alloc, on)?;
        if let Err(refused) = self.by_variable.add_all(place, on) {
            self.by_variable.remove_all(place, on);
            return Err(refused);
        }
        if self.by_place.insert(place, variables).is_err() {
            self.by_variable.remove_all(place, on);
            return Err(AllocError);
        }
        Ok(())
    }

    /// Drops all waits of a place: the variables on which it waited, each once.
    pub fn drop_place(&mut self, place: Place) -> Vec<Var>
        ensures dropped { (p : _) (x : _) → waits_on self.new p x ≡ (waits_on self.old p x && not (same_place p place)) }
        ensures variables { (x : _) → is_variable_in x result.items ≡ waits_on self.old place x }
        ensures once { IsDistinct same_var result.items }
    {
        match self.by_place.remove(place) {
            Some(variables) => {
                self.by_variable.remove_all(place, variables.as_slice());
                variables
            }
            None => Vec::new(self.alloc),
        }
    }

    /// The variables on which a place waits, each once.
    pub fn variables_of(&self, place: Place) -> &[Var]
        ensures { (x : _) → is_variable_in x result.now ≡ waits_on self.now place x }
    {
        match self.by_place.get(place) {
            Some(variables) => variables.as_slice(),
            None => &[],
        }
    }

    /// The places that wait on a variable, each once, in increasing order.
    pub fn woken_by(&self, variable: Var) -> Woken<'_>
        ensures { result ≡ places_at variable self.now }
    {
        Woken {
            places: self.by_variable.places(variable),
        }
    }
}

// Variables, each once.
fn each_once(alloc: Global, variables: &[Var]) -> Result<Vec<Var>, AllocError>
    ensures same { IfOk result (λ list. (x : _) → is_variable_in x list.items ≡ is_variable_in x variables.now) }
    ensures once { IfOk result (λ list. IsDistinct same_var list.items) }
{
    let mut list = Vec::from_slice(alloc, variables)?;
    list.sort_unstable();
    list.dedup();
    Ok(list)
}

/// An iterator over the places that wait on a variable. Contracts see it as those that are left.
#[derive(Drop)]
pub struct Woken<'a> {
    places: Option<btree_set::Iter<'a, Place>>,
}

impl<'a> Model for Woken<'a> {
    ghost use Rattle.std.specs.Prelude.{List};
    ghost use Rattle.akl_terms.specs.declared.name.Place.{Place};
    ghost use Rattle.wake_lists.specs.Waits.{listed};

    ghost Value = { List Place };

    ghost view = { λ w. listed w.places };
}

impl<'a> Iterator for Woken<'a> {
    ghost use Rattle.std.specs.Iterator.{YieldsFirst, item_count};

    type Item = Place;

    ghost next_gives = { YieldsFirst (λ left. left) };

    ghost remaining = { item_count (λ left. left) };

    fn next(&mut self) -> Option<Place> {
        self.places.as_mut()?.next().copied()
    }
}
