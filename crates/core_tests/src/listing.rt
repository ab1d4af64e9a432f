//! Which places are open, as a text.

ghost use Rattle.std.specs.Prelude.{◌≡◌, Some, option_map, IfSome};
ghost use Rattle.wake_lists.specs.Open.{Opening, opening_at};

use crate::texts::push_place;
use akl_terms::{Name, Place};
use scheduler::Scheduler;
use std::alloc::{AllocError, Global};

// More than the places of any line: a token is the least that no open place has.
const TOKENS: u64 = 100;

// What places are listed by: boxes before goals, each by name.
fn key_of(place: &Place) -> (bool, Name) {
    match place {
        Place::Box(name) => (false, *name),
        Place::Goal(name) => (true, *name),
    }
}

/// Places in order, with a text before the first and commas between.
pub fn push_places(
    text: &mut String,
    before: &str,
    places: &mut [Place],
) -> Result<(), AllocError> {
    places.sort_unstable_by_key(key_of);
    let mut separator = before;
    for place in places {
        text.push_str(separator)?;
        push_place(text, *place)?;
        separator = ", ";
    }
    Ok(())
}

/// The places that are open under these tokens.
pub fn places_under(
    alloc: Global,
    scheduler: &Scheduler,
    tokens: &[u64],
) -> Result<Vec<Place>, AllocError> {
    let mut places = Vec::new(alloc);
    for token in tokens {
        if let Some(place) = scheduler.place_of(*token) {
            places.push(place)?;
        }
    }
    Ok(places)
}

// All open places.
fn open_places(alloc: Global, scheduler: &Scheduler) -> Result<Vec<Place>, AllocError> {
    let mut places = Vec::new(alloc);
    for token in 0..TOKENS {
        if let Some(place) = scheduler.place_of(token) {
            places.push(place)?;
        }
    }
    Ok(places)
}

/// `open`, and the open places.
pub fn push_open(
    alloc: Global,
    scheduler: &Scheduler,
    text: &mut String,
) -> Result<(), AllocError> {
    let mut places = open_places(alloc, scheduler)?;
    text.push_str("open")?;
    push_places(text, " ", &mut places)
}

/// The token of an open place.
pub fn token_of(scheduler: &Scheduler, place: Place) -> Option<u64>
    ensures { IfSome result (λ token. option_map (λ (o : Opening). o.place) (opening_at token scheduler.now.openings) ≡ Some place) }
{
    for token in 0..TOKENS {
        if scheduler.place_of(token) == Some(place) {
            return Some(token);
        }
    }
    None
}
