//! Members of classes of variables, as many as the outermost store of a chain doesn't tell.
#![tactic(auto)]

mod candidates;
mod ending;
mod listing;

pub use listing::members;
