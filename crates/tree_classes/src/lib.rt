//! The trees of a graph: which nodes are the same, and which are cyclic.
#![tactic(auto)]

mod classes;
mod numbers;
mod tops;

pub use classes::{TreeClasses, find_classes};
pub use numbers::Numbers;
pub use tops::find_tops;
