//! The words of a command line.
#![tactic(auto)]

mod asked;
mod batch;
mod command;
mod flag;
mod number;
mod options;
mod queries;
mod seen;
mod setting;
mod words;

pub use batch::{BatchOptions, read_batch_words};
pub use flag::Flags;
pub use options::{Job, Options, WordsError};
pub use queries::queries_in;
pub use words::read_words;
