//! Plain heads: a call's arguments met in one pass with a head that has nothing but variables, each once, and constants and
//! structures of these; and the store that its bindings join.
#![tactic(auto)]

mod ends;
mod joining;
mod meeting;
mod row;

pub use ends::put_ends;
pub use joining::joined;
pub use meeting::{Met, meet};
pub use row::Row;
