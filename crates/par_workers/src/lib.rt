//! The run of several workers on one state.
#![tactic(auto)]

mod choosing;
mod concluding;
mod copies;
mod crew;
mod late;
mod looking;
mod lying;
mod made;
mod planning;
mod roots;
mod run;
mod shared;
mod signals;
mod tokens;
mod vain_turns;
mod vain_waits;
mod worker;

pub use run::{Finished, run_many};
