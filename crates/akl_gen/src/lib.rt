//! A program and a query that are made from a number.
#![tactic(auto)]

mod elements;
mod texts;

pub use texts::generate;
