//! Places as they are written in a trace.

use akl_terms::{Name, Place};

/// A worker at a place, and how many labels its plan may have.
#[derive(Clone, Copy)]
pub struct Turn {
    pub worker: u32,
    pub place: Place,
    pub room: u64,
}

// A name: a worker, a dot and a number.
fn name_of(text: &str) -> Option<Name> {
    let (worker, number) = text.split_once('.')?;
    Some(Name {
        worker: worker.parse().ok()?,
        number: number.parse().ok()?,
    })
}

/// A place: `goal` or `box`, a blank, and its name.
pub fn place_of(text: &str) -> Option<Place> {
    let (kind, name) = text.split_once(' ')?;
    let name = name_of(name)?;
    match kind {
        "goal" => Some(Place::Goal(name)),
        "box" => Some(Place::Box(name)),
        _ => None,
    }
}

// What a plan of a call may have at most.
const ROOM: u64 = 100;

/// A worker, a blank and a place, of one label; or of many, where ` at once` stands behind.
pub fn turn_of(text: &str) -> Option<Turn> {
    let (worker, place) = text.split_once(' ')?;
    let (place, room) = match place.split_once(" at once") {
        Some((place, _)) => (place, ROOM),
        None => (place, 1),
    };
    Some(Turn {
        worker: worker.parse().ok()?,
        place: place_of(place)?,
        room,
    })
}
