//! Laws of the variables that a plan says its label binds.
//!
//! The crate holds laws; nothing of it is called at run time.
#![tactic(auto)]

mod laws;

pub use laws::{binding_later, call_binding_again, listed_outside};
