//! Which variables of a root box the stores inside it lead to.
#![tactic(auto)]

mod inside;
mod owned;
mod walk;

pub use inside::ends_inside;
