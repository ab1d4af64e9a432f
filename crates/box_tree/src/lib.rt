//! A flat table of boxes and goals that unfolds to a configuration, what is seen of a place in it, and plans that are right.
#![tactic(auto)]

mod alone;
mod candidates;
mod choosing;
mod cutting;
mod deciding;
mod drawing;
mod dropping;
mod entries;
mod failing;
mod forking;
mod inside;
mod looking;
mod marking;
mod named;
mod plan;
mod promoting;
mod short;
mod splitting;
mod standing;
mod starting;
mod step;
mod store_marks;
mod table;
mod telling;
mod view;
mod way;

pub use cutting::parted;
pub use entries::{BoxEntry, GoalEntry, Held, HeldOp};
pub use inside::{InnerBox, InnerGoal, Inside};
pub use plan::Plan;
pub use short::ShortList;
pub use step::{BoxCopy, NewBox, Step};
pub use store_marks::{StoreMark, TableMarks};
pub use table::Table;
pub use view::{Alternative, LookError, Sight, View};
