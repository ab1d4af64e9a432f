//! Calls at once: from what is seen of a call to all its labels, up to the promotion of the one clause that is left and behind it
//! those of goals of its body.
#![tactic(auto)]

mod bodies;
mod choosing;
mod finding;
mod guards;
mod heads;
mod joining;
mod labels;
mod names;
mod own;
mod prospects;
mod reading;
mod sifting;
mod waiting;
mod within;

pub use finding::call_at_once;
pub use heads::Arguments;
pub use waiting::waits_for;
