//! Places that aren't ready, with what they read and what they wait on.
#![tactic(auto)]

mod around;
mod goals;
mod idling;
mod inside;
mod reading;
mod told;

pub use idling::{idle_box, idle_goal, idle_root};
