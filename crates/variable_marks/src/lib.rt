//! Of each variable a mark: the number of the last label that listed it as bound, or of a later one.
#![tactic(auto)]

mod frame;
mod marks;

pub use marks::Marks;
