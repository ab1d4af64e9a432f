//! Terms from lexemes.
#![tactic(auto)]

mod level;
mod source;
mod terms;

pub use level::{Level, operator};
pub use source::{SourceStep, SourceTerm};
pub use terms::{arguments, expr};
