//! Which nodes of a finite graph are the same tree.
#![tactic(auto)]

mod early;
mod entries;
mod firsts;
mod groups;
mod naming;
mod parts;
mod queue;

pub use firsts::first_places;
pub use parts::refine;
