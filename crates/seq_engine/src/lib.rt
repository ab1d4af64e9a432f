//! The run of one worker.
#![tactic(auto)]

mod attending;
mod receipts;
mod run;
mod steps;

pub use receipts::push_receipts;
pub use run::{End, Finished, run_on, run_one};
