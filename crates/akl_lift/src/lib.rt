//! Lifting: inline choices and collecting goals become calls of definitions.
#![tactic(auto)]

mod clauses;
mod lifting;
mod locals;
mod noting;
mod places;
mod query;
mod scope;
mod seen;
mod variables;

pub use clauses::lift;
pub use query::lift_query;
