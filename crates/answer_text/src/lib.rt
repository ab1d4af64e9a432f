//! The text of an answer.
#![tactic(auto)]

mod classes;
mod laws;
mod lines;
mod piece;
mod printer;
mod symbol;

pub use laws::{cyclic_texts, one_text, text_exists, texts_stand, written_out};
pub use lines::{AnswerError, answer};
pub use symbol::{push_constant, push_symbol, symbol_text};
