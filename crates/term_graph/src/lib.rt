//! The trees that shown terms reach, as the nodes of a finite graph.
#![tactic(auto)]

mod builder;
mod ending;
mod graph;
mod place;

pub use builder::Builder;
pub use graph::{TermGraph, build_graph};
