//! What comes next at a place that a worker looked at: a plan, or a reason to sleep.
#![tactic(auto)]

mod again;
mod calls;
mod candidates;
mod next;
mod seen;

pub use again::{Onlooker, make_again, show_place};
pub use candidates::first_candidate;
pub use next::{Early, Next, early_next, next_of};
pub use seen::{Seen, see, see_still};
