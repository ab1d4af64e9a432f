//! The lines of an answer, with names for its cyclic trees.
#![tactic(auto)]

mod answer;
mod lines;
mod node;
mod piece;
mod printer;

pub use answer::answer_lines;
