//! Which nodes of a finite graph lie on a cycle.
#![tactic(auto)]

mod found;
mod search;

pub use found::{Components, find_components};
