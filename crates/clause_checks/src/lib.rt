//! Why a program or a query isn't loaded.
#![tactic(auto)]

mod arguments;
mod callees;
mod calls;
mod checks;
mod choices;
mod definitions;
mod error;
mod goals;
mod heads;
mod keys;
mod limits;
mod listed;
mod tally;

pub use checks::{check_clauses, check_goals};
pub use error::{Limit, LoadError};
