//! Terms over rational trees, the types of programs, and what equality under equations means.
#![tactic(auto)]

mod items;
mod laws;
mod name;
mod program;
mod steps;
mod templates;
mod term;
mod text;

pub use items::Items;
pub use laws::{equality, order, standing};
pub use name::{Name, Place, Var};
pub use program::{
    Clause, Code, Definition, Goal, Key, Op, Program, Query, Shown, ShownTerm, Test,
};
pub use steps::Steps;
pub use templates::Templates;
pub use term::{Equation, Node, Seen, Term};
pub use text::Text;
