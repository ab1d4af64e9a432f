//! A lock for a value with a history: each thread's pass knows what it has seen of it.
//!
//! The lock is taken by the first pass that finds it free, in no order of arrival, so no pass waits for one whose thread
//! doesn't run. A pass that has waited for long sleeps until it is woken.
#![tactic(auto)]

mod booked;
mod lock;
mod rule;
mod steps;
mod view;

pub use booked::Booked;
pub use lock::{Pass, Turn, TurnLock};
pub use view::{Joined, View};
