//! A map from names to values, found by the numbers of the names.
#![tactic(auto)]

mod boxed;
mod boxed_map;
mod map;
mod numbers;
mod page;
mod spare;

pub use boxed_map::BoxedMap;
pub use map::NameMap;
