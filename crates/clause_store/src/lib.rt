//! Loading: written clauses and queries as programs and queries over templates.
#![tactic(auto)]

mod codes;
mod definitions;
mod groups;
mod nodes;
mod program;
mod query;
mod shown;
mod variables;

pub use program::load;
pub use query::load_query;
