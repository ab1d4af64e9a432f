//! Why a suspended root box waits: its goals, and the variables on which they wait.
#![tactic(auto)]

mod lines;
mod oldest;
mod root;
mod waiting;
mod watching;

pub use lines::why_lines;
pub use root::root_waits;
pub use waiting::{Waiting, why};
