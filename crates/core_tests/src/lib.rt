//! Tests of one core: two workers, which plan over one state and commit one after the other; and its open places, place by
//! place.
#![tactic(auto)]

#[cfg(test)]
mod attending;
#[cfg(test)]
mod cases;
#[cfg(test)]
mod listing;
#[cfg(test)]
mod loading;
#[cfg(test)]
mod open_places;
#[cfg(test)]
mod places;
#[cfg(test)]
mod race;
#[cfg(test)]
mod texts;
#[cfg(test)]
mod waking;
