//! Values by places.

ghost use Rattle.std.specs.Prelude.{◌≡◌, [], None, Some, option_copied, OnOk, OnErr};
ghost use Rattle.wake_lists.specs.PlaceMaps.{value_at, FindsAt};

use akl_terms::Place;
use name_map::NameMap;
use std::alloc::{AllocError, Global};

/// The values of goals, and those of boxes. A look-up takes the same time whatever is there.
#[derive(Drop)]
pub(crate) struct PlaceMap<V> {
    goals: NameMap<V>,
    boxes: NameMap<V>,
}

impl<V> PlaceMap<V> {
    pub(crate) fn new(alloc: Global) -> PlaceMap<V>
        ensures { result ≡ record { goals = []; boxes = [] } }
    {
        PlaceMap {
            goals: NameMap::new(alloc),
            boxes: NameMap::new(alloc),
        }
    }

    /// The value of the place.
    pub(crate) fn get(&self, place: Place) -> Option<&V>
        ensures { option_copied result ≡ value_at self.now place }
    {
        match place {
            Place::Goal(name) => self.goals.get(name),
            Place::Box(name) => self.boxes.get(name),
        }
    }

    /// Gives the place this value. An `Err`, for want of memory, leaves all as it was.
    pub(crate) fn insert(&mut self, place: Place, value: V) -> Result<(), AllocError>
    where
        V: Drop,
        ensures put { OnOk result (FindsAt self.old self.new place (Some value)) }
        ensures unchanged { OnErr result (self.new ≡ self.old) }
    {
        match place {
            Place::Goal(name) => self.goals.insert(name, value),
            Place::Box(name) => self.boxes.insert(name, value),
        }
    }

    /// Takes out the value of the place, where it has one.
    pub(crate) fn remove(&mut self, place: Place) -> Option<V>
    where
        V: Drop,
        ensures was { result ≡ value_at self.old place }
        ensures gone { FindsAt self.old self.new place None }
    {
        match place {
            Place::Goal(name) => self.goals.remove(name),
            Place::Box(name) => self.boxes.remove(name),
        }
    }
}
