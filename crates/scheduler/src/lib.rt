//! Which places of a run are open, and what those that sleep wait on.
#![tactic(auto)]

mod alternatives;
mod attention;
mod candidates;
mod committing;
mod counting;
mod dropping;
mod effects;
mod hints;
mod once;
mod opening;
mod placing;
mod resting;
mod scheduler;
mod settling;
mod splits;
mod turns;
mod waiting;

pub use attention::Attention;
pub use committing::Committed;
pub use scheduler::Scheduler;
pub use settling::SettleError;
