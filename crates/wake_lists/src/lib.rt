//! Which places are open, in the order in which they come, and which places wait on which variables.
#![tactic(auto)]

mod heap_tokens;
mod inside;
mod line;
mod lines;
mod open;
mod place_map;
mod queue;
mod schedule;
mod slots;
mod standing;
mod token_set;
mod tokens;
mod turn;
mod waiting;
mod waits;

pub use open::Open;
pub use turn::{Turn, Urgency};
pub use waits::{Waits, Woken};
