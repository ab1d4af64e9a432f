//! Many queries over one program: each is run on its own, several of them at the same time.
#![tactic(auto)]

mod answer;
mod reply;
mod run;
mod sharing;
mod text_sink;

pub use reply::{BatchReport, Reply};
pub use run::run_batch;
