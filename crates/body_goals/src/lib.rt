//! Goals of a body that are reduced at once, in order, by what the stores from a root box down to a box tell.
#![tactic(auto)]

mod binding;
mod body;
mod goal;
mod telling;
mod within;

pub use body::{Body, reduce};
