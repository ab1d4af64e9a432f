//! Sends: where the port of a send is.
#![tactic(auto)]

mod send;

pub use send::{SendState, sendable};
