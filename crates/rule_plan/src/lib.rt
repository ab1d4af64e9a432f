//! From what is seen of a place to a plan that is right.
#![tactic(auto)]

mod at_goals;
mod boxes;
mod clashes;
mod evaluating;
mod failing;
mod forking;
mod heads;
mod items;
mod names;
mod new_stores;
mod opening;
mod planning;
mod sending;
mod stores;
mod telling;

pub use planning::{plan, plan_with_noise};
