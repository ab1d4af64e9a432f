//! Why nothing goes on in a suspended root box while the variables that it watches stay as they are.
//!
//! The crate holds definitions and laws; nothing of it is called at run time.
#![tactic(auto)]

mod laws;

pub use laws::{watched, why_sound};
