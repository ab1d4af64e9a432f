//! Places, each once.

ghost use Rattle.std.specs.Prelude.{◌≡◌, true, IfOk, OnOk};
ghost use Rattle.scheduler.specs.Once.{IsEachPlaceOnce, AreSameOnce, AddsNew};

use crate::dropping::is_among;
use akl_terms::Place;
use box_tree::ShortList;
use std::alloc::{AllocError, Global};
use std::collections::BTreeSet;

// In a list with no more places than this each is compared with each.
const FEW: usize = 8;

/// These places, each once, in the order in which they first come.
pub(crate) fn each_once(
    alloc: Global,
    places: ShortList<Place>,
) -> Result<ShortList<Place>, AllocError>
    ensures { IfOk result (λ once. AreSameOnce places.items once.items) }
{
    if is_one_at_most(places.as_slice()) {
        return Ok(places);
    }
    once_among(alloc, places)
}

// Whether there is no more than one place.
fn is_one_at_most(places: &[Place]) -> bool
    ensures { result ≡ true → IsEachPlaceOnce places.now }
{
    places.len() <= 1
}

// The same where there may be several places.
fn once_among(alloc: Global, places: ShortList<Place>) -> Result<ShortList<Place>, AllocError>
    ensures { IfOk result (λ once. AreSameOnce places.items once.items) }
{
    if places.as_slice().len() <= FEW && are_different(places.as_slice()) {
        Ok(places)
    } else {
        first_of_each(alloc, places.as_slice())
    }
}

// Whether no place stands twice among these.
fn are_different(places: &[Place]) -> bool
    ensures { result ≡ true → IsEachPlaceOnce places.now }
{
    let mut left = places;
    while let Some((place, others)) = left.split_first() {
        if is_among(*place, others) {
            return false;
        }
        left = others;
    }
    true
}

// Each of these places where it first comes.
fn first_of_each(alloc: Global, places: &[Place]) -> Result<ShortList<Place>, AllocError>
    ensures { IfOk result (λ once. AreSameOnce places.now once.items) }
{
    let mut seen = BTreeSet::new(alloc);
    let mut once = ShortList::new();
    for place in places {
        push_new(alloc, *place, &mut seen, &mut once)?;
    }
    Ok(once)
}

// A place that wasn't seen yet comes to the end of the places.
fn push_new(
    alloc: Global,
    place: Place,
    seen: &mut BTreeSet<Place>,
    places: &mut ShortList<Place>,
) -> Result<(), AllocError>
    ensures { OnOk result (AddsNew place seen.old.keys places.old.items seen.new.keys places.new.items) }
{
    if seen.insert(place)? {
        places.push(alloc, place)?;
    }
    Ok(())
}
