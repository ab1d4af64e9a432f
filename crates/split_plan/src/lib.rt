//! Plans of Split, by all that is seen of a box and inside it.
#![tactic(auto)]

mod planning;
mod reading;

pub use planning::{plan_root_split, plan_split};
