//! Root boxes that are answers: their texts and their models.
#![tactic(auto)]

mod model;
mod root;

pub use model::{root_model, root_model_lines};
pub use root::root_text;
