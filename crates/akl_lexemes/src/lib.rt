//! Lexemes: what terms and goals are read from.
#![tactic(auto)]

mod brackets;
mod depth;
mod error;
mod fault;
mod fronts;
mod lexed;
mod lexeme;
mod names;

pub use brackets::Brackets;
pub use error::SyntaxError;
pub use fault::Fault;
pub use fronts::{behind, front, skip};
pub use lexed::{Lexed, within_limits};
pub use lexeme::Lexeme;
