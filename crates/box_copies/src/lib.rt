//! The copies that the split of a box makes: the second box, without the alternative at which the first one is split,
//! under new names throughout.
#![tactic(auto)]

mod copying;
mod gathering;
mod goals;
mod guesses;
mod names;
mod stores;

pub use copying::{Copied, copies_of};
