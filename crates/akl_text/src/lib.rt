//! The tokens of a program's text, and the text that a token stands for.
#![tactic(auto)]

mod bytes;
mod decode;
mod front;
mod laws;
mod layout;
mod quoted;
mod scan;
mod token;

pub use decode::{integer_of, text_of};
pub use laws::one_meaning;
pub use layout::layout_end;
pub use scan::{TextError, tokens};
pub use token::{Kind, Token};
