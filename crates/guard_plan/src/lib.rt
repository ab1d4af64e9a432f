//! Plans for choices: an alternative whose guard holds leaves no room for others, or joins the box of the choice; or all
//! alternatives join it, with the list of what is collected of them.
#![tactic(auto)]

mod collecting;
mod cutting;
mod guards;
mod joining;
mod labels;
mod listing;
mod planning;
mod promoting;
mod reading;

pub use cutting::plan_cut;
pub use guards::{Noise, quietness, shared};
pub use joining::told_inside;
pub use labels::{label_for, label_of};
pub use listing::node_after;
pub use planning::plan_guard;
pub use reading::{ends_of, goal_and_sets, push_bindings, reads_of};
