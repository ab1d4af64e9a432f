//! Places that aren't ready, with what they read and what they wait on.
#![tactic(auto)]

mod idle;
mod laws;

pub use idle::Idle;
pub use laws::{idle_later, kept_by_settle};
