//! The state of a run, which keeps the derivation that led to it.
#![tactic(auto)]

mod commit;
mod state;

pub use commit::CommitError;
pub use state::Core;
