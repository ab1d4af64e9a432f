//! What a flat table of boxes and goals stands for, and what labels and calls at once make of it; what a plan adds to a store is
//! right in the table of every longer run in which what it read is unchanged.
//!
//! The crate holds definitions and laws; nothing of it is called at run time.
#![tactic(auto)]

mod of_call_parts;
mod of_call_tables;
mod of_joins;
mod of_parts;
mod of_tables;

pub use of_call_parts::{call_stores, calls_here, calls_later};
pub use of_call_tables::{call_marks, call_steps};
pub use of_joins::{chains, joins, parts_still};
pub use of_parts::{
    part_steps, parts_here, same_steps, solved_later, steps_later, store_marks, walked_ends,
};
pub use of_tables::{drawn_names, gone_places, later_steps, made_copies, marks, start, steps};
