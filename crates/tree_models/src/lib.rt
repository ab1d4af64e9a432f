//! Finite tables of places that solve equations: the models of answers.
#![tactic(auto)]

mod cell;
mod cell_text;
mod cells;
mod laws;
mod made;
mod model;
mod starts;
mod text;
mod variables;
mod visiting;

pub use cell::{Cell, Places};
pub use laws::{clash_has_none, merged_tables, numbered_by_visit, solved_equations};
pub use model::{Given, TreeModel, find_model};
pub use text::model_lines;
