//! When an open place comes.

use akl_terms::Place;

/// How urgent an open place is: one of an earlier variant comes before all of a later one.
#[derive(Clone, Copy, Debug, PartialEq, Eq, PartialOrd)]
pub enum Urgency {
    Urgent,
    Ordinary,
    /// It comes once all open places are late.
    Late,
}

/// The turn of an open place: the more urgent one comes first, and of two that are as urgent the one with the lesser
/// number.
#[derive(Clone, Copy, Debug, PartialEq, Eq)]
pub struct Turn {
    pub urgency: Urgency,
    /// Above those of all places that were open when the turn was given.
    pub number: u64,
}

/// An open place, and when it comes.
#[derive(Clone, Copy)]
pub(crate) struct Opened {
    pub place: Place,
    pub turn: Turn,
}
