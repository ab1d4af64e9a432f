//! A pool of tokens for several workers: each has a hand with a deque of its own, and takes from the others' deques
//! where its own is empty.
#![tactic(auto)]

mod ending;
mod hand;
mod pool;
mod rule;
mod view;
mod way;

pub use ending::finish;
pub use hand::{Hand, Refused, is_bare, push, room, take};
pub use pool::Pool;
pub use rule::{InOrder, Rule};
pub use view::{Account, View};
