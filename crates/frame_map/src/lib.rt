//! A map from names to values, in trees by the digits of the names' numbers. Maps share nodes.
#![tactic(auto)]

mod change;
mod digits;
mod map;
mod root;
mod slots;
mod tree;

pub use change::Change;
pub use map::FrameMap;
