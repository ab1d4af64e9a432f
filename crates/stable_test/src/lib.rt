//! Whether a box is stable, and what it touches from outside, by what is seen of all places in it and inside it.
#![tactic(auto)]

mod awaiting;
mod frames;
mod inside;
mod reaching;
mod stability;

pub use awaiting::awaited;
pub use frames::frames_of;
pub use inside::reached_inside;
pub use reaching::reached;
pub use stability::is_stable;
