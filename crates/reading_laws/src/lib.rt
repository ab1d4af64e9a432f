//! Laws of what plans and idle places read, by stamps and marks, where bindings are told apart: plans of labels, of calls at once,
//! and idle places.
//!
//! The crate holds definitions and laws; nothing of it is called at run time.
#![tactic(auto)]

mod of_calls;
mod of_idle;
mod of_plans;

pub use of_calls::{call_marks, calls_again, seen_calls};
pub use of_idle::{idle_goals, seen_boxes};
pub use of_plans::{
    bound_again, growing_boxes, idle_places, labels_again, marks, plans_again, seen_plans,
};
